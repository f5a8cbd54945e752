//! The answer of a peon to a leader that collects.

ghost use Rattle.std.specs.Prelude.{◌≡◌, ℕ, ◌+◌, ◌-◌, ◌≤◌, ◌^◌, ◌||◌, nat_le, nat_lt, false, None, length, min, sum_by, IfOk};
ghost use Rattle.mon_bytes.specs.declared.limits.TheConstants.{MOST_MESSAGE};
ghost use Rattle.mon_msg.specs.Protocol.Answers.{answer_of, told_of, sent_values};
ghost use Rattle.mon_msg.specs.Protocol.Parts.{value_length, told_length};
ghost use Rattle.mon_msg.specs.Protocol.Readings.{readings_of};
ghost use Rattle.mon_msg.specs.Protocol.Records.{pending};
ghost use Rattle.mon_wire.specs.declared.body.Body.TheVariants as body;
ghost use Rattle.mon_wire.specs.declared.write_lists.TheConstants.{MOST_ITEMS};
ghost use Rattle.paxos_peon.specs.declared.answer.TheConstants.{BESIDES};

use mon_bytes::{Items, OutOfMemory};
use mon_msg::{Body, Found, MOST_MESSAGE, Told};
use mon_stored::{Run, Stored};
use mon_tx::Transaction;
use mon_types::{Pn, Version};
use std::alloc::Global;

/// How many bytes an answer takes besides its values and the pending value.
const BESIDES: usize = 47;

/// How many bytes an answer without a pending value takes besides its values. The byte after `BESIDES` says that there
/// is none.
const WITHOUT_PENDING: usize = 48;

/// Whether no values are sent from a version on: the leader has them all, or they aren't kept any more.
fn sends_none(stored: &Stored<'_>, from: Version) -> bool
    ensures { result ≡ (nat_lt (readings_of stored.now).last from || nat_lt from (readings_of stored.now).first) }
{
    from.get() > stored.last().get() || stored.first().get() > from.get()
}

/// The committed values from a version on, as many as one answer takes.
fn sent_values(alloc: Global, stored: &Stored<'_>, from: Version) -> Result<Run, OutOfMemory>
    ensures values { (n promise : ℕ) → let w = readings_of stored.now in
        IfOk result (λ run. run.values ≡ sent_values n promise w.first w.last w.record_of from) }
    ensures bytes { IfOk result (λ run. run.bytes ≡ sum_by value_length run.values) }
    ensures few { IfOk result (λ run. length run.values ≤ MOST_ITEMS) }
{
    if sends_none(stored, from) {
        return Ok(Run {
            values: Items::new(alloc),
            bytes: 0,
        });
    }
    stored.run(alloc, from.get(), WITHOUT_PENDING, WITHOUT_PENDING)
}

/// The pending value, as it is sent.
fn told(alloc: Global, stored: &Stored<'_>) -> Result<Option<Told>, OutOfMemory>
    ensures { IfOk result (λ told. told ≡ told_of (pending (readings_of stored.now))) }
{
    let found = stored.pending(alloc)?;
    match found {
        None => Ok(None),
        Some(
            Found {
                version: _,
                pn,
                value,
            },
        ) => Ok(Some(Told { pn, value })),
    }
}

/// How many bytes a pending value takes in an answer.
fn told_len(told: &Option<Told>) -> usize
    ensures { result ≡ min (told_length told.now) (2 ^ 64 - 1) }
{
    match told {
        None => 1,
        Some(told) => (told.value.text_len() as usize).saturating_add(13),
    }
}

/// Whether an answer with values of `bytes` bytes has room for the pending value besides.
fn has_room(bytes: usize, told: &Option<Told>) -> bool
    ensures { result ≡ nat_le (BESIDES + bytes + told_length told.now) MOST_MESSAGE }
{
    told_len(told).saturating_add(bytes).saturating_add(BESIDES) <= MOST_MESSAGE
}

/// The incomplete answer with these values. The leader collects again after it.
fn answer_in_part(
    stored: &Stored<'_>,
    promise: Pn,
    from: Version,
    values: Items<Transaction>,
) -> Body
    ensures { let w = readings_of stored.now in result ≡ body.Last promise w.first w.last false from values None }
{
    Body::Last {
        pn: promise,
        first: stored.first(),
        last: stored.last(),
        whole: false,
        from,
        values,
        pending: None,
    }
}

/// The answer to a leader that has the versions before `from`. `promise` is the number that the peon has promised. The
/// answer is incomplete if it lacks a version up to the last one, or has no room for the pending value.
pub(crate) fn answer(
    alloc: Global,
    stored: &Stored<'_>,
    promise: Pn,
    from: Version,
) -> Result<Body, OutOfMemory>
    ensures { (n : ℕ) → let w = readings_of stored.now in
        IfOk result (λ body. body ≡ answer_of n promise w.first w.last w.record_of (pending w) from) }
{
    let Run { values, bytes } = sent_values(alloc, stored, from)?;
    let last = stored.last();
    if from.get() + values.as_slice().len() as u64 <= last.get() {
        return Ok(answer_in_part(stored, promise, from, values));
    }
    let pending = told(alloc, stored)?;
    if !has_room(bytes, &pending) {
        return Ok(answer_in_part(stored, promise, from, values));
    }
    Ok(Body::Last {
        pn: promise,
        first: stored.first(),
        last,
        whole: true,
        from,
        values,
        pending,
    })
}
