//! The values that a store's records encode, with the pending one, and runs of them.

ghost use Rattle.std.specs.Prelude.{◌≡◌, ℕ, ◌+◌, ◌-◌, ◌≤◌, ◌^◌, sum_by, length, min, Some, IfOk, IfSome, is_some, if◌then◌else◌};
ghost use Rattle.mon_bytes.specs.declared.limits.TheConstants.{MOST_MESSAGE};
ghost use Rattle.mon_tx.specs.Text.{text};
ghost use Rattle.mon_msg.specs.Protocol.Parts.{value_length};
ghost use Rattle.mon_msg.specs.Protocol.Readings.{readings_of};
ghost use Rattle.mon_msg.specs.Protocol.Records.{record_at, transaction_in, found_as, pending};
ghost use Rattle.mon_wire.specs.declared.write_lists.TheConstants.{MOST_ITEMS};
ghost use Rattle.mon_stored.specs.Runs.{run_within, if_room};

use crate::stored::Stored;
use mon_bytes::{Items, OutOfMemory};
pub use mon_msg::MOST_PROPOSED;
use mon_msg::{Found, MOST_ITEMS, MOST_MESSAGE};
use mon_tx::{Transaction, TxRefused, decode, is_text};
use mon_types::Version;
use std::alloc::Global;

/// The longest text in bytes of a value that a BEGIN may carry: the longest message, without the 32 bytes of its other
/// fields.
const MOST_BEGUN: usize = MOST_MESSAGE - 32;

/// The value that the bytes encode, if a BEGIN may carry it. Longer bytes aren't decoded.
fn value_in(alloc: Global, bytes: &[u8]) -> Result<Option<Transaction>, OutOfMemory>
    ensures value { IfOk result (λ value. value ≡ transaction_in (Some bytes.now)) }
    ensures bytes { IfOk result (λ value. IfSome value (λ ops. bytes.now ≡ text ops)) }
{
    if bytes.len() > MOST_BEGUN {
        return Ok(None);
    }
    match decode(alloc, bytes) {
        Ok(value) => Ok(Some(value)),
        Err(TxRefused::OutOfMemory) => Err(OutOfMemory),
        Err(_) => Ok(None),
    }
}

/// How many bytes a value takes in a list of a message.
fn value_len(value: &Transaction) -> usize
    ensures { result ≡ min (value_length value.now) (2 ^ 64 - 1) }
{
    (value.text_len() as usize).saturating_add(4)
}

/// The value that the bytes encode, if it takes at most `room` bytes in a list of a message. Longer bytes aren't
/// decoded.
fn value_fitting(
    alloc: Global,
    bytes: &[u8],
    room: usize,
) -> Result<Option<Transaction>, OutOfMemory>
    ensures { IfOk result (λ value. value ≡ if_room room (transaction_in (Some bytes.now))) }
{
    if room < 4 {
        return Ok(None);
    }
    if bytes.len() > room - 4 {
        return Ok(None);
    }
    value_in(alloc, bytes)
}

/// Whether an accepted value counts as pending: it is a transaction that is short enough to be proposed.
fn counts(value: &[u8]) -> bool
    ensures { (v pn : ℕ) → result ≡ is_some (found_as v pn (transaction_in (Some value.now))) }
{
    if value.len() > MOST_PROPOSED {
        return false;
    }
    is_text(value)
}

/// Values of consecutive versions, and how many bytes they take in a list of a message.
#[derive(Drop)]
pub struct Run {
    pub values: Items<Transaction>,
    pub bytes: usize,
}

/// How many bytes are free in a message that has `bytes` bytes of values. Its other fields take `at_end` bytes if its
/// values reach the last version, and `plain` bytes otherwise.
fn room_at(is_last: bool, plain: usize, at_end: usize, bytes: usize) -> usize
    ensures { result ≡ MOST_MESSAGE - (if is_last then at_end else plain) - bytes }
{
    let besides = if is_last { at_end } else { plain };
    MOST_MESSAGE.saturating_sub(besides).saturating_sub(bytes)
}

impl<'a> Stored<'a> {
    /// The value that a version's record encodes. `None` if there is no record, if it is no transaction, or if no BEGIN
    /// may carry it.
    #[tactic(auto, unfolding(mon_msg::specs::Protocol::Records::record_at))]
    pub fn record_at(&self, alloc: Global, v: u64) -> Result<Option<Transaction>, OutOfMemory>
        ensures { IfOk result (λ value. value ≡ record_at (readings_of self.now).record_of v) }
    {
        match self.stored(v) {
            Some(bytes) => value_in(alloc, bytes),
            None => Ok(None),
        }
    }

    /// The same, but `None` if the value takes more than `room` bytes in a list of a message. A longer record isn't
    /// decoded.
    #[tactic(auto, unfolding(mon_msg::specs::Protocol::Records::record_at))]
    fn value_within(
        &self,
        alloc: Global,
        v: u64,
        room: usize,
    ) -> Result<Option<Transaction>, OutOfMemory>
        ensures { IfOk result (λ value. value ≡ if_room room (record_at (readings_of self.now).record_of v)) }
    {
        match self.stored(v) {
            Some(bytes) => value_fitting(alloc, bytes, room),
            None => Ok(None),
        }
    }

    /// Whether a value that may be proposed was accepted for the version after the last one. It takes no memory.
    #[tactic(auto, unfolding(mon_msg::specs::Protocol::Records::pending_of, mon_msg::specs::Protocol::Records::record_at))]
    pub fn has_pending(&self) -> bool
        ensures { result ≡ is_some (pending (readings_of self.now)) }
    {
        let next = self.last().get() + 1;
        if self.pending_v() != next {
            return false;
        }
        match self.stored(next) {
            Some(bytes) => counts(bytes),
            None => false,
        }
    }

    /// The value that was accepted for the version after the last one, with its proposal number, if it may be proposed.
    #[tactic(auto, unfolding(mon_msg::specs::Protocol::Records::pending_of, mon_msg::specs::Protocol::Records::record_at))]
    pub fn pending(&self, alloc: Global) -> Result<Option<Found>, OutOfMemory>
        ensures { IfOk result (λ found. found ≡ pending (readings_of self.now)) }
    {
        if !self.has_pending() {
            return Ok(None);
        }
        let next = self.last().get() + 1;
        let Some(value) = self.record_at(alloc, next)? else {
            return Ok(None);
        };
        let version = Version::known(self.pending_v());
        let pn = self.pending_pn();
        Ok(Some(Found { version, pn, value }))
    }

    /// The longest run of values from version `from` on that fits in a message. It ends before the first version
    /// without a valid record. The message's other fields take `at_end` bytes if the run reaches the last version, and
    /// `plain` bytes otherwise. Each record is decoded once, and none for which there is no room.
    pub fn run(
        &self,
        alloc: Global,
        from: u64,
        plain: usize,
        at_end: usize,
    ) -> Result<Run, OutOfMemory>
        ensures values { IfOk result (λ run. run.values ≡ run_within (readings_of self.now).record_of (readings_of self.now).last from plain at_end) }
        ensures bytes { IfOk result (λ run. run.bytes ≡ sum_by value_length run.values) }
        ensures few { IfOk result (λ run. length run.values ≤ MOST_ITEMS) }
    {
        let last = self.last().get();
        let mut values = Items::new(alloc);
        let mut bytes = 0;
        for v in from..last + 1 {
            if values.as_slice().len() == MOST_ITEMS {
                return Ok(Run { values, bytes });
            }
            let room = room_at(v == last, plain, at_end, bytes);
            let Some(value) = self.value_within(alloc, v, room)? else {
                return Ok(Run { values, bytes });
            };
            bytes += value_len(&value);
            values.push(value)?;
        }
        Ok(Run { values, bytes })
    }
}
