//! Plans in the language of a trace.

use mon_bytes::{Items, OutOfMemory};
use mon_kv::Kv;
use mon_msg::Next;
use mon_msg::plan::Sent;
use mon_tx::Transaction;
use mon_types::{Moment, Rank};
use schedule_text::{Event, Plain};
use std::alloc::Global;
use std::fmt::Write;
use std::test::Fail;
use trace_text::{Numbered, Outcome, Replied, Replies, StepLine, trace_line};

/// Adds what the monitor of this rank sends to the messages or to the replies. Each message has the number 1.
fn put(
    own: Rank,
    sent: &mut Items<Numbered>,
    replies: &mut Replies,
    each: Sent,
) -> Result<(), OutOfMemory> {
    match each {
        Sent::Message { to, message } => sent.push(Numbered {
            number: 1,
            to,
            message,
        }),
        Sent::Reply { to, reply } => replies.push(Replied {
            rank: own,
            session: to,
            reply,
        }),
    }
}

/// The step of a trace with this many changes, and with what the monitor of this rank sends and answers.
fn step_of(alloc: Global, own: Rank, ops: u32, out: Items<Sent>) -> Result<StepLine, Fail> {
    let mut sent = Items::new(alloc);
    let mut replies = Replies::new(alloc);
    for each in out.into_vec() {
        put(own, &mut sent, &mut replies, each)?;
    }
    Ok(StepLine {
        outcome: Outcome::Ran,
        ops,
        state: None,
        sent,
        replies,
    })
}

fn event() -> Event {
    let at = Moment::known(0);
    Event::Plain(Plain::Deliver { message: 1, at })
}

/// The lines of a trace that report such a step, after the line of an event.
fn traced(alloc: Global, own: Rank, ops: u32, out: Items<Sent>) -> Result<Vec<u8>, Fail> {
    let step = step_of(alloc, own, ops, out)?;
    let event = event();
    let lines = trace_line(alloc, 1, &event, &step);
    drop(event);
    drop(step);
    Ok(lines?)
}

/// The act that a plan names, as text. It is empty if there is none.
fn act(next: Next) -> &'static str {
    let act = match &next {
        Next::Stay => "",
        Next::Bootstrap => "bootstrap;",
        Next::Elect => "elect;",
        Next::Electing => "electing;",
        Next::Win { .. } => "win;",
        Next::Follow { .. } => "follow;",
        Next::FullSync { .. } => "full;",
        Next::RecentSync { .. } => "recent;",
        Next::Begin { .. } => "begin;",
    };
    drop(next);
    act
}

/// The lines after the first one, with a semicolon after each, and then the act and what is remembered.
fn joined(alloc: Global, lines: &[u8], act: &str, remembers: &str) -> Result<String, Fail> {
    let lines = str::from_utf8(lines)?;
    let mut text = String::new(alloc);
    for line in lines.lines().skip(1) {
        write!(text, "{};", line.trim_start())?;
    }
    write!(text, "{act}{remembers}")?;
    Ok(text)
}

/// Makes the changes of a transaction to a store, and returns how many they are.
fn made(kv: &mut Kv, tx: &Transaction) -> Result<u32, Fail> {
    kv.apply(tx)?;
    Ok(u32::try_from(tx.ops().len())?)
}

/// What a plan of the monitor of this rank does to its store, as a trace reports it, the act that follows, and what
/// is remembered then: a semicolon follows each of a trace's lines.
pub(crate) fn shown(
    alloc: Global,
    own: Rank,
    kv: &mut Kv,
    tx: Transaction,
    out: Items<Sent>,
    next: Next,
    remembers: &str,
) -> Result<String, Fail> {
    let act = act(next);
    let ops = made(kv, &tx);
    drop(tx);
    let lines = traced(alloc, own, ops?, out)?;
    let text = joined(alloc, lines.as_slice(), act, remembers);
    drop(lines);
    text
}
