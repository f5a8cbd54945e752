//! The values that a map has under known names.
//!
//! `last_pn`, `promise`, `floor` and `pending` are here for tests. The program reads these values through `mon_stored`,
//! which sees changes that aren't made yet.

ghost use Rattle.std.specs.Prelude.{◌≡◌, ◌≤◌, ◌^◌, IfSome, IsTrue};
ghost use Rattle.std.specs.Option.{option_copied, option_map};
ghost use Rattle.mon_tx.specs.Keys.{cell, is_fixed, number};
ghost use Rattle.mon_tx.specs.declared.key.Area.TheVariants as area;
ghost use Rattle.mon_tx.specs.declared.key.Key.TheVariants as key;
ghost use Rattle.mon_kv.specs.Readers.{IsNumber, epoch, is_marked, pending};

use crate::kv::{Kv, number_of};
use itoa::Buffer;
use mon_tx::{Area, Key, is_text};

/// A value that this monitor accepted and that isn't committed yet.
#[derive(Clone, Copy, Debug)]
pub struct Pending<'a> {
    pub v: u64,
    pub pn: u64,
    pub value: &'a [u8],
}

impl Kv {
    /// The value at a key with a fixed text.
    fn named(&self, area: Area, key: Key) -> Option<&[u8]>
        requires { IsTrue (is_fixed key) }
        ensures { option_copied result ≡ cell self.now area key }
    {
        self.get(area.as_bytes(), key.as_bytes())
    }

    /// The number at a key with a fixed text.
    pub fn named_number(&self, area: Area, key: Key) -> u64
        requires { IsTrue (is_fixed key) }
        ensures { IsNumber self.now area key result }
    {
        number_of(self.named(area, key))
    }

    /// The first version that is kept.
    pub fn first_committed(&self) -> u64
        ensures { IsNumber self.now area.Paxos key.FirstCommitted result }
    {
        self.named_number(Area::Paxos, Key::FirstCommitted)
    }

    /// The last committed version.
    pub fn last_committed(&self) -> u64
        ensures { IsNumber self.now area.Paxos key.LastCommitted result }
    {
        self.named_number(Area::Paxos, Key::LastCommitted)
    }

    /// The last proposal number that the monitor made.
    pub fn last_pn(&self) -> u64
        ensures { IsNumber self.now area.Paxos key.LastPn result }
    {
        self.named_number(Area::Paxos, Key::LastPn)
    }

    /// The proposal number that the monitor promised.
    pub fn promise(&self) -> u64
        ensures { IsNumber self.now area.Paxos key.AcceptedPn result }
    {
        self.named_number(Area::Paxos, Key::AcceptedPn)
    }

    /// The election epoch. It counts as 1 if there is none.
    pub fn epoch(&self) -> u64
        ensures value { result ≡ epoch self.now }
        ensures most { result ≤ 2 ^ 62 }
    {
        if self.named(Area::Monitor, Key::ElectionEpoch).is_none() {
            return 1;
        }
        self.named_number(Area::Monitor, Key::ElectionEpoch)
    }

    /// How often the monitor was started.
    pub fn boot_count(&self) -> u64
        ensures { IsNumber self.now area.Monitor key.BootCount result }
    {
        self.named_number(Area::Monitor, Key::BootCount)
    }

    /// The version that a full synchronization must reach.
    pub fn floor(&self) -> u64
        ensures { IsNumber self.now area.Sync key.Floor result }
    {
        self.named_number(Area::Sync, Key::Floor)
    }

    /// Whether a full synchronization is under way.
    pub fn in_sync(&self) -> bool
        ensures { result ≡ is_marked self.now }
    {
        self.named_number(Area::Sync, Key::InSync) == 1
    }

    /// The record of a version: the bytes at its decimal key, or `None` if and only if there are none.
    #[tactic(auto, using(mon_tx::proofs::Decimals::decimal_is))]
    pub fn stored(&self, v: u64) -> Option<&[u8]>
        ensures { option_copied result ≡ cell self.now area.Paxos (key.Version v) }
    {
        let mut digits = Buffer::new();
        self.get(Area::Paxos.as_bytes(), digits.format(v).as_bytes())
    }

    /// The value that was accepted for the version after the last one. It is there if and only if `pending_v` is that
    /// version and its record is a transaction.
    #[tactic(auto, unfolding(crate::specs::Readers::pending))]
    pub fn pending(&self) -> Option<Pending<'_>>
        ensures value { option_map (λ p. (p.v, p.pn, p.value.now)) result ≡ pending self.now }
        ensures most { IfSome result (λ p. (p.v ≤ 2 ^ 62) × (p.pn ≤ 2 ^ 62)) }
    {
        let v = self.last_committed() + 1;
        if self.named_number(Area::Paxos, Key::PendingV) != v {
            return None;
        }
        let value = self.stored(v)?;
        if !is_text(value) {
            return None;
        }
        let pn = self.named_number(Area::Paxos, Key::PendingPn);
        Some(Pending { v, pn, value })
    }
}
