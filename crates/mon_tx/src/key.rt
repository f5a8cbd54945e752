ghost use Rattle.std.specs.Prelude.{◌≡◌, true, IfOk, IsTrue, string_bytes};
ghost use Rattle.mon_bytes.specs.Texts.{is_word, is_name};
ghost use Rattle.mon_tx.specs.Keys.{area_text, key_text, decimal_text, is_fixed};

use mon_bytes::{Name, OutOfMemory, Prefix};
use std::alloc::Global;

/// A part of a monitor's map, which is a prefix of its keys.
#[derive(Clone, Copy, PartialEq, Eq)]
pub enum Area {
    /// The log of committed versions, and the monitor's own numbers of Paxos.
    Paxos,
    /// The key-value service.
    Kv,
    /// The cluster log.
    Logm,
    /// The monitor itself.
    Monitor,
    /// A full synchronization under way.
    Sync,
}

/// What a key of an area holds.
#[derive(Clone, Copy, PartialEq, Eq)]
pub enum Key {
    /// The first version that is kept.
    FirstCommitted,
    /// The last committed version.
    LastCommitted,
    /// The last proposal number that this monitor made.
    LastPn,
    /// The proposal number that this monitor promised.
    AcceptedPn,
    /// The version of the accepted value.
    PendingV,
    /// The proposal number of the accepted value.
    PendingPn,
    /// The version of the newest full map of a service.
    FullLatest,
    /// The election epoch.
    ElectionEpoch,
    /// How often this monitor was started.
    BootCount,
    /// 1 while a full synchronization is under way.
    InSync,
    /// The version that such a synchronization must reach.
    Floor,
    /// The record of a version: a value of the log, or a service's incremental.
    Version(u64),
    /// A service's full map at a version.
    Full(u64),
}

fn copied(alloc: Global, text: &str) -> Result<String, OutOfMemory>
    ensures { IfOk result (λ s. string_bytes s ≡ text.now) }
{
    Ok(String::from_str(alloc, text)?)
}

#[tactic(auto, using(crate::proofs::Decimals::decimal_is, crate::proofs::Decimals::decimal_word))]
fn decimal(alloc: Global, n: u64) -> Result<String, OutOfMemory>
    ensures text { IfOk result (λ s. string_bytes s ≡ decimal_text n) }
    ensures form { IfOk result (λ s. is_word 20 (string_bytes s) ≡ true) }
{
    Ok(format!(in alloc; "{n}")?)
}

impl Key {
    /// The text of a key that has no number.
    fn as_str(self) -> &'static str
        requires { IsTrue (is_fixed self) }
        ensures text { result.now ≡ key_text self }
        ensures form { is_name result.now ≡ true }
    {
        match self {
            Key::FirstCommitted => "first_committed",
            Key::LastCommitted => "last_committed",
            Key::LastPn => "last_pn",
            Key::AcceptedPn => "accepted_pn",
            Key::PendingV => "pending_v",
            Key::PendingPn => "pending_pn",
            Key::FullLatest => "full_latest",
            Key::ElectionEpoch => "election_epoch",
            Key::BootCount => "boot_count",
            Key::InSync => "in_sync",
            Key::Floor => "last_committed_floor",
            Key::Version(_) | Key::Full(_) => unreachable!(),
        }
    }

    /// The key as a map has it, given that its text is fixed: it is neither `Version` nor `Full`. It takes no memory.
    pub fn as_bytes(self) -> &'static [u8]
        requires { IsTrue (is_fixed self) }
        ensures { result.now ≡ key_text self }
    {
        self.as_str().as_bytes()
    }

    #[tactic(auto, using(crate::proofs::Decimals::word_name, crate::proofs::Decimals::whole_name))]
    fn written(self, alloc: Global) -> Result<String, OutOfMemory>
        ensures text { IfOk result (λ s. string_bytes s ≡ key_text self) }
        ensures form { IfOk result (λ s. is_name (string_bytes s) ≡ true) }
    {
        match self {
            Key::Version(v) => decimal(alloc, v),
            Key::Full(v) => {
                let mut text = copied(alloc, "full_")?;
                text.push_str(decimal(alloc, v)?.as_str())?;
                Ok(text)
            }
            _ => copied(alloc, self.as_str()),
        }
    }

    /// The key as a map has it.
    pub fn name(self, alloc: Global) -> Result<Name, OutOfMemory>
        ensures { IfOk result (λ name. name ≡ key_text self) }
    {
        match Name::new(self.written(alloc)?.into_bytes()) {
            Some(name) => Ok(name),
            None => unreachable!(),
        }
    }
}

impl Area {
    /// The area's prefix as text.
    pub fn as_str(self) -> &'static str
        ensures { result.now ≡ area_text self }
    {
        match self {
            Area::Paxos => "paxos",
            Area::Kv => "kv",
            Area::Logm => "logm",
            Area::Monitor => "monitor",
            Area::Sync => "mon_sync",
        }
    }

    /// The area's prefix as bytes. It takes no memory.
    pub fn as_bytes(self) -> &'static [u8]
        ensures { result.now ≡ area_text self }
    {
        self.as_str().as_bytes()
    }

    /// The area's prefix.
    pub fn prefix(self, alloc: Global) -> Result<Prefix, OutOfMemory>
        ensures { IfOk result (λ p. p ≡ area_text self) }
    {
        Prefix::from_slice(alloc, self.as_bytes())
    }
}
