//! What the tests of several roles give: numbers, monitors, stores and values.

ghost use Rattle.std.specs.Prelude.{◌<◌, ◌≤◌, IsTrue};
ghost use Rattle.mon_plan.specs.Inputs.{input_is_short};
ghost use Rattle.mon_msg.specs.Protocol.Length.{fits};

use election_rules::Rule;
use mon_bytes::{Bytes, Items};
use mon_kv::Kv;
use mon_msg::input::Input;
use mon_msg::{Body, MOST_ITEMS, MOST_MESSAGE, Me, Message, Phase, Reply, View};
use mon_tx::{Area, Key, Transaction};
use mon_types::{GREATEST, Member, Number, Rank, RankSet};
use std::alloc::Global;
use std::test::Fail;

/// The number `n`, or the greatest number if `n` is above it.
pub(crate) fn number<K: Copy>(n: u64) -> Number<K> {
    Number::known(n.min(GREATEST))
}

/// A monitor of a quorum of this many.
pub(crate) fn me(rank: Rank, monitors: u8, rule: Rule) -> Me
    requires in_map { rank < monitors }
    requires most { monitors ≤ 15 }
{
    let member = Member { rank, monitors };
    Me { member, rule }
}

/// What the roles of a monitor know of it in a phase, with this leader and the bits of this quorum, and a valid
/// lease.
pub(crate) fn view(phase: Phase, leader: Rank, quorum: u16) -> View {
    View {
        phase,
        leader,
        quorum: RankSet::from_bits(quorum),
        standing: true,
        readable: true,
    }
}

/// Whether a message may be sent. It is `false` also for those that no test here gives.
fn may_be_sent(message: &Message) -> bool
    ensures { IsTrue result → IsTrue (fits message.now.monitors message.now.body) }
{
    if message.len() > MOST_MESSAGE {
        return false;
    }
    match &message.body {
        Body::Collect { .. }
        | Body::Begin { .. }
        | Body::Accept { .. }
        | Body::Lease { .. }
        | Body::Forward { .. }
        | Body::Route {
            reply: Reply::Done { .. },
            ..
        }
        | Body::Cookie { .. } => true,
        Body::Last { values, .. } | Body::Commit { values, .. } => values.len() <= MOST_ITEMS,
        Body::Chunk {
            values,
            entries,
            ..
        } => values.len() <= MOST_ITEMS && entries.len() <= MOST_ITEMS,
        Body::LastChunk {
            values,
            entries,
            ..
        } => values.len() <= MOST_ITEMS && entries.len() <= MOST_ITEMS,
        _ => false,
    }
}

/// Whether the input, if it is a message, is of the monitor's map and may be sent.
pub(crate) fn input_is_short(me: &Me, input: &Input) -> bool
    ensures { IsTrue result → IsTrue (input_is_short me.now.member.monitors input.now) }
{
    match input {
        Input::Deliver(message) => {
            message.monitors == me.member.monitors && may_be_sent(message)
        }
        _ => true,
    }
}

/// The transaction that puts these numbers.
fn puts(alloc: Global, numbers: &[(Area, Key, u64)]) -> Result<Transaction, Fail> {
    let mut tx = Transaction::new(alloc);
    for (area, key, n) in numbers {
        tx.put_number(*area, *key, *n)?;
    }
    Ok(tx)
}

/// Makes the changes of a transaction.
pub(crate) fn keep(kv: &mut Kv, tx: Transaction) -> Result<(), Fail> {
    let kept = kv.apply(&tx);
    drop(tx);
    Ok(kept?)
}

/// A store that holds these numbers.
pub(crate) fn store(alloc: Global, numbers: &[(Area, Key, u64)]) -> Result<Kv, Fail> {
    let tx = puts(alloc, numbers)?;
    let mut kv = Kv::empty(alloc);
    keep(&mut kv, tx)?;
    Ok(kv)
}

/// The value of a version of the log: it puts this number.
pub(crate) fn value(alloc: Global, n: u64) -> Result<Transaction, Fail> {
    let mut value = Transaction::new(alloc);
    value.put_number(Area::Kv, Key::LastCommitted, n)?;
    Ok(value)
}

pub(crate) fn values(alloc: Global, count: u64) -> Result<Items<Transaction>, Fail> {
    let mut values = Items::new(alloc);
    for n in 0..count {
        values.push(value(alloc, n)?)?;
    }
    Ok(values)
}

/// The bytes of the value that puts this number.
pub(crate) fn record(alloc: Global, n: u64) -> Result<Vec<u8>, Fail> {
    let value = value(alloc, n)?;
    let record = value.encode();
    drop(value);
    Ok(record?)
}

fn records(alloc: Global, first: u64, last: u64) -> Result<Transaction, Fail> {
    let mut tx = Transaction::new(alloc);
    for v in first..last.saturating_add(1) {
        let record = Bytes::new(record(alloc, v)?);
        tx.put(Area::Paxos, Key::Version(v), record)?;
    }
    Ok(tx)
}

/// Puts the records of the versions from `first` to `last`, each of which puts its own version.
pub(crate) fn put_records(alloc: Global, kv: &mut Kv, first: u64, last: u64) -> Result<(), Fail> {
    keep(kv, records(alloc, first, last)?)
}
