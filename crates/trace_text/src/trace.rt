ghost use Rattle.std.specs.Prelude.{◌≡◌, ◌<◌, ◌^◌, ◌++◌, string_bytes, IfOk, OnOk};
ghost use Rattle.std.specs.List.{flat_map};
ghost use Rattle.trace_text.specs.Trace.{since_text, reply_text, reply_line, store_lines, state_lines, done_lines, step_lines, end_text};

use crate::sent::put_sent;
use crate::shown::put_shown;
use crate::step::{Outcome, Replied, StateLine, StepLine};
use crate::words::{fate, flag, phase_word};
use mon_bytes::OutOfMemory;
use mon_types::Version;
use mon_wire::{Reply, Service};
use schedule_text::{Event, service_word};
use std::alloc::{AllocError, Global};
use std::fmt::Write;

/// The room, in bytes, with which the lines of an event begin: most are no longer.
const ROOM: usize = 512;

/// Appends the text of a reply with this many incrementals.
fn put_since(
    out: &mut String,
    service: Service,
    from: Version,
    count: usize,
    more: bool,
) -> Result<(), AllocError>
    requires { count < 2 ^ 63 }
    ensures { OnOk result (string_bytes out.new ≡ string_bytes out.old ++ since_text service from count more) }
{
    let service = service_word(service);
    let from = from.get();
    let to = from + count as u64;
    let flag = flag(more);
    write!(
        out,
        "since {service} from={from} to={to} count={count} more={flag}"
    )
}

fn put_reply(alloc: Global, out: &mut String, reply: &Reply) -> Result<(), AllocError>
    ensures { OnOk result (string_bytes out.new ≡ string_bytes out.old ++ reply_text reply.now) }
{
    match reply {
        Reply::Done { version } => {
            let version = version.get();
            write!(out, "done {version}")
        }
        Reply::Shown {
            service,
            paxos,
            version,
            map,
        } => {
            let service = service_word(*service);
            let paxos = paxos.get();
            let version = version.get();
            write!(out, "shown {service} paxos={paxos} version={version} ")?;
            put_shown(alloc, out, map)
        }
        Reply::Since {
            service,
            from,
            incrementals,
            more,
        } => put_since(out, *service, *from, incrementals.as_slice().len(), *more),
        Reply::NoSuch => out.push_str("nosuch"),
        Reply::TooLong { len, most } => write!(out, "toolong len={len} most={most}"),
        Reply::MapFull { would_be } => write!(out, "mapfull would_be={would_be}"),
        Reply::Unavailable => out.push_str("unavailable"),
        Reply::NotReadable { has, lease } => {
            let has = has.get();
            let flag = flag(*lease);
            write!(out, "notreadable has={has} lease={flag}")
        }
        Reply::Busy { waiting } => write!(out, "busy waiting={waiting}"),
    }
}

fn put_replied(alloc: Global, out: &mut String, replied: &Replied) -> Result<(), AllocError>
    ensures { OnOk result (string_bytes out.new ≡ string_bytes out.old ++ reply_line replied.now) }
{
    let rank = replied.rank.get();
    let client = replied.session.client;
    let id = replied.session.id;
    write!(out, "  reply {rank} {client}.{id} ")?;
    put_reply(alloc, out, &replied.reply)?;
    out.push_str("\n")
}

fn put_replies(alloc: Global, out: &mut String, replies: &[Replied]) -> Result<(), AllocError>
    ensures { OnOk result (string_bytes out.new ≡ string_bytes out.old ++ flat_map reply_line replies.now) }
{
    for replied in replies {
        put_replied(alloc, out, replied)?;
    }
    Ok(())
}

fn put_ops(out: &mut String, ops: u32) -> Result<(), AllocError>
    ensures { OnOk result (string_bytes out.new ≡ string_bytes out.old ++ store_lines ops) }
{
    if ops == 0 {
        return Ok(());
    }
    write!(out, "  store {ops}\n")
}

fn put_state(out: &mut String, state: &Option<StateLine>) -> Result<(), AllocError>
    ensures { OnOk result (string_bytes out.new ≡ string_bytes out.old ++ state_lines state.now) }
{
    match state {
        None => Ok(()),
        Some(state) => {
            let phase = phase_word(state.phase);
            let epoch = state.epoch.get();
            let last = state.last.get();
            write!(out, "  is {phase} epoch {epoch} last {last}\n")
        }
    }
}

fn put_done(alloc: Global, out: &mut String, step: &StepLine) -> Result<(), AllocError>
    ensures { OnOk result (string_bytes out.new ≡ string_bytes out.old ++ done_lines step.now) }
{
    match step.outcome {
        Outcome::Ran => {
            put_ops(out, step.ops)?;
            put_state(out, &step.state)?;
            put_sent(out, step.sent.as_slice())?;
            put_replies(alloc, out, step.replies.as_slice())
        }
        Outcome::Down => out.push_str("  down\n"),
        Outcome::NoMessage => out.push_str("  none\n"),
        Outcome::Crashed { kept } => {
            let fate = fate(kept);
            write!(out, "  crashed {fate}\n")
        }
        Outcome::Failed { kept } => {
            let fate = fate(kept);
            write!(out, "  failed {fate}\n")
        }
    }
}

/// The lines of one event: its number, counted from 1, with its text, and what it did.
pub fn trace_line(
    alloc: Global,
    number: u32,
    event: &Event,
    step: &StepLine,
) -> Result<Vec<u8>, OutOfMemory>
    ensures { IfOk result (λ bytes. bytes.items ≡ step_lines number event.now step.now) }
{
    let mut out = String::with_capacity(alloc, ROOM)?;
    write!(out, "{number} {event}\n")?;
    put_done(alloc, &mut out, step)?;
    Ok(out.into_bytes())
}

/// The last line of a trace of this many events, after which the log has this many versions.
pub fn end_line(alloc: Global, events: u32, log: u64) -> Result<Vec<u8>, OutOfMemory>
    ensures { IfOk result (λ bytes. bytes.items ≡ end_text events log) }
{
    let line = format!(in alloc; "end events={events} log={log}\n")?;
    Ok(line.into_bytes())
}
