//! A monitor's store as it would be after changes that aren't made yet.

ghost use Rattle.std.specs.Prelude.{◌≡◌, ◌≤◌, ◌^◌, None, IfOk, IfSome, IsTrue, is_some, if◌then◌else◌};
ghost use Rattle.std.specs.FinMap.{get};
ghost use Rattle.std.specs.List.{filter, list_any};
ghost use Rattle.std.specs.Option.{option_copied, option_map};
ghost use Rattle.mon_tx.specs.Keys.{cell, number, covers, is_fixed, key_text};
ghost use Rattle.mon_tx.specs.Map.{apply};
ghost use Rattle.mon_msg.specs.Joined.{takes_away};
ghost use Rattle.mon_msg.specs.Protocol.Readings.{readings_of, epoch_of, promise_of, number_if_there};
ghost use Rattle.mon_stored.specs.Taking.{is_taking, IsAt};

use itoa::Buffer;
use mon_bytes::OutOfMemory;
use mon_kv::{Kv, number_of};
use mon_tx::{Area, Key, Op, Transaction, is_at};
use mon_types::{Epoch, Pn, Version};
use std::alloc::Global;
use std::marker::Model;

/// A monitor's store as it would be after some changes that aren't made yet. Contracts see the map after the changes.
#[derive(Drop)]
pub struct Stored<'a> {
    kv: &'a Kv,
    ops: &'a [Op],
    /// What the changes put and don't erase again.
    put: Kv,
    /// The changes that erase keys.
    taken: Vec<Op>,
}

impl<'a> Model for Stored<'a> {
    ghost use Rattle.std.specs.Coded.{coded×, coded_list, coded_ℕ};
    ghost use Rattle.std.specs.FinMap.{code, empty};
    ghost use Rattle.std.specs.List.{filter};
    ghost use Rattle.std.specs.Prelude.{◌≡◌};
    ghost use Rattle.mon_tx.specs.Map.{Store, apply};
    ghost use Rattle.mon_stored.specs.Taking.{is_taking};

    ghost Value = { Store };

    ghost coded = { code (coded× (coded_list coded_ℕ) (coded_list coded_ℕ)) (coded_list coded_ℕ) };

    ghost view = { λ s. apply s.ops.now s.kv.now };

    ghost invariant = { λ s. (s.put ≡ apply s.ops.now empty) × (s.taken.items ≡ filter is_taking s.ops.now) };
}

/// A named key, with its prefix and its text.
#[derive(Clone, Copy)]
pub(crate) struct At<'a> {
    pub(crate) prefix: &'a [u8],
    pub(crate) key: Key,
    pub(crate) text: &'a [u8],
}

fn is_taking(op: &Op) -> bool
    ensures { result ≡ is_taking op.now }
{
    match op {
        Op::Put { .. } => false,
        _ => true,
    }
}

/// Copies of the changes that erase keys.
fn taken_by(alloc: Global, ops: &[Op]) -> Result<Vec<Op>, OutOfMemory>
    ensures { IfOk result (λ taken. taken.items ≡ filter is_taking ops.now) }
{
    let mut taken = Vec::new(alloc);
    for op in ops {
        if !is_taking(op) {
            continue;
        }
        taken.push(op.copy(alloc)?)?;
    }
    Ok(taken)
}

/// Whether a named key is that of a version from `from` up to but not including `to`.
fn covers(from: u64, to: u64, key: Key) -> bool
    ensures { result ≡ covers from to key }
{
    match key {
        Key::Version(v) => from <= v && v < to,
        _ => false,
    }
}

/// Whether a change erases the named key `at`.
#[tactic(auto, using(crate::proofs::Standing::erase_takes, crate::proofs::Standing::prefix_takes, crate::proofs::Standing::range_takes))]
fn takes_away(op: &Op, at: &At<'_>) -> bool
    requires { IsAt at.now }
    ensures { result ≡ takes_away (at.now.prefix.now, at.now.text.now) op.now }
{
    match op {
        Op::Put { .. } => false,
        Op::Erase { prefix, key } => is_at(at.prefix, at.text, prefix.as_slice(), key.as_slice()),
        Op::ErasePrefix { prefix } => at.prefix == prefix.as_slice(),
        Op::EraseRange { prefix, from, to } => {
            let same_prefix = at.prefix == prefix.as_slice();
            same_prefix & covers(from.get(), to.get(), at.key)
        }
    }
}

/// Whether one of the changes erases the named key `at`.
fn is_taken(ops: &[Op], at: &At<'_>) -> bool
    requires { IsAt at.now }
    ensures { result ≡ list_any (takes_away (at.now.prefix.now, at.now.text.now)) ops.now }
{
    for op in ops {
        if takes_away(op, at) {
            return true;
        }
    }
    false
}

/// The value that a map holds at a named key, or `None` if one of the changes erases the key.
fn still_there<'k>(kv: &'k Kv, taken: &[Op], at: &At<'_>) -> Option<&'k [u8]>
    requires { IsAt at.now }
    ensures { option_copied result ≡ if list_any (takes_away (at.now.prefix.now, at.now.text.now)) taken.now then None else get kv.now (at.now.prefix.now, at.now.text.now) }
{
    if is_taken(taken, at) {
        return None;
    }
    kv.get(at.prefix, at.text)
}

impl<'a> Stored<'a> {
    /// A borrowed store. It takes no memory.
    pub fn of(alloc: Global, kv: &'a Kv) -> Stored<'a>
        ensures { result ≡ kv.now }
    {
        Stored {
            kv,
            ops: &[],
            put: Kv::empty(alloc),
            taken: Vec::new(alloc),
        }
    }

    /// A store after changes.
    pub fn after(alloc: Global, kv: &'a Kv, tx: &'a Transaction) -> Result<Stored<'a>, OutOfMemory>
        ensures { IfOk result (λ stored. stored ≡ apply tx.now kv.now) }
    {
        let mut put = Kv::empty(alloc);
        put.apply(tx)?;
        let ops = tx.ops();
        let taken = taken_by(alloc, ops)?;
        Ok(Stored {
            kv,
            ops,
            put,
            taken,
        })
    }

    /// The value at a named key, whose text is known. A look-up takes as many steps as the trees are high, and one
    /// for each change that takes keys away.
    fn named(&self, area: Area, key: Key, text: &[u8]) -> Option<&[u8]>
        requires { text.now ≡ key_text key }
        ensures { option_copied result ≡ cell self.now area key }
    {
        let prefix = area.as_bytes();
        match self.put.get(prefix, text) {
            Some(bytes) => Some(bytes),
            None => still_there(self.kv, self.taken.as_slice(), &At { prefix, key, text }),
        }
    }

    /// The number at a key with a fixed text.
    fn number(&self, area: Area, key: Key) -> u64
        requires { IsTrue (is_fixed key) }
        ensures value { result ≡ number self.now area key }
        ensures most { result ≤ 2 ^ 62 }
    {
        number_of(self.named(area, key, key.as_bytes()))
    }

    /// The number at a key with a fixed text, if there is one.
    fn if_there(&self, area: Area, key: Key) -> Option<u64>
        requires { IsTrue (is_fixed key) }
        ensures value { result ≡ number_if_there (cell self.now area key) }
        ensures most { IfSome result (λ n. n ≤ 2 ^ 62) }
    {
        match self.named(area, key, key.as_bytes()) {
            Some(bytes) => Some(number_of(Some(bytes))),
            None => None,
        }
    }

    /// The epoch. It counts as 1 if there is none.
    #[tactic(auto, unfolding(mon_msg::specs::Protocol::Readings::readings_of))]
    pub fn epoch(&self) -> Epoch
        ensures { result ≡ epoch_of (readings_of self.now) }
    {
        match self.if_there(Area::Monitor, Key::ElectionEpoch) {
            Some(epoch) => Epoch::known(epoch),
            None => Epoch::known(1),
        }
    }

    /// Whether an epoch was put.
    #[tactic(auto, unfolding(mon_msg::specs::Protocol::Readings::readings_of))]
    pub fn has_epoch(&self) -> bool
        ensures { result ≡ is_some (readings_of self.now).epoch }
    {
        self.if_there(Area::Monitor, Key::ElectionEpoch).is_some()
    }

    /// How often the monitor has started.
    #[tactic(auto, unfolding(mon_msg::specs::Protocol::Readings::readings_of))]
    pub fn boot(&self) -> u64
        ensures value { result ≡ (readings_of self.now).boot }
        ensures most { result ≤ 2 ^ 62 }
    {
        self.number(Area::Monitor, Key::BootCount)
    }

    /// The last proposal number that the monitor made, if there is one.
    #[tactic(auto, unfolding(mon_msg::specs::Protocol::Readings::readings_of))]
    pub fn last_pn(&self) -> Option<Pn>
        ensures { result ≡ (readings_of self.now).last_pn }
    {
        match self.if_there(Area::Paxos, Key::LastPn) {
            Some(pn) => Some(Pn::known(pn)),
            None => None,
        }
    }

    /// The proposal number that it promised, if there is one.
    #[tactic(auto, unfolding(mon_msg::specs::Protocol::Readings::readings_of))]
    pub fn promised(&self) -> Option<Pn>
        ensures { result ≡ (readings_of self.now).promise }
    {
        match self.if_there(Area::Paxos, Key::AcceptedPn) {
            Some(pn) => Some(Pn::known(pn)),
            None => None,
        }
    }

    /// The proposal number that it promised, or 0.
    pub fn promise(&self) -> Pn
        ensures { result ≡ promise_of (readings_of self.now) }
    {
        match self.promised() {
            Some(pn) => pn,
            None => Pn::known(0),
        }
    }

    /// The first version that is kept.
    #[tactic(auto, unfolding(mon_msg::specs::Protocol::Readings::readings_of))]
    pub fn first(&self) -> Version
        ensures { result ≡ (readings_of self.now).first }
    {
        Version::known(self.number(Area::Paxos, Key::FirstCommitted))
    }

    /// The last committed version.
    #[tactic(auto, unfolding(mon_msg::specs::Protocol::Readings::readings_of))]
    pub fn last(&self) -> Version
        ensures value { result ≡ (readings_of self.now).last }
        ensures most { (readings_of self.now).last ≤ 2 ^ 62 }
    {
        Version::known(self.number(Area::Paxos, Key::LastCommitted))
    }

    /// The version for which a value was accepted last.
    #[tactic(auto, unfolding(mon_msg::specs::Protocol::Readings::readings_of))]
    pub(crate) fn pending_v(&self) -> u64
        ensures value { result ≡ (readings_of self.now).pending_v }
        ensures most { result ≤ 2 ^ 62 }
    {
        self.number(Area::Paxos, Key::PendingV)
    }

    /// The proposal number under which that value was accepted.
    #[tactic(auto, unfolding(mon_msg::specs::Protocol::Readings::readings_of))]
    pub(crate) fn pending_pn(&self) -> Pn
        ensures { result ≡ (readings_of self.now).pending_pn }
    {
        Pn::known(self.number(Area::Paxos, Key::PendingPn))
    }

    /// Whether a full synchronization is under way.
    #[tactic(auto, unfolding(mon_msg::specs::Protocol::Readings::readings_of))]
    pub fn is_marked(&self) -> bool
        ensures { result ≡ (readings_of self.now).marked }
    {
        self.number(Area::Sync, Key::InSync) == 1
    }

    /// The version that a full synchronization must reach.
    #[tactic(auto, unfolding(mon_msg::specs::Protocol::Readings::readings_of))]
    pub fn floor(&self) -> Version
        ensures { result ≡ (readings_of self.now).floor }
    {
        Version::known(self.number(Area::Sync, Key::Floor))
    }

    /// The record of a version: the bytes at its decimal key, or `None` if and only if there are none.
    #[tactic(auto, using(mon_tx::proofs::Decimals::decimal_is), unfolding(mon_msg::specs::Protocol::Readings::readings_of))]
    pub fn stored(&self, v: u64) -> Option<&[u8]>
        ensures { option_copied result ≡ (readings_of self.now).record_of v }
    {
        let mut digits = Buffer::new();
        let text = digits.format(v);
        self.named(Area::Paxos, Key::Version(v), text.as_bytes())
    }
}
