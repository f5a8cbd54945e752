//! The lines of the messages that a monitor sends to others.

ghost use Rattle.std.specs.Prelude.{◌≡◌, ◌<◌, ◌^◌, ◌++◌, codes, decimal, string_bytes, OnOk};
ghost use Rattle.std.specs.List.{flat_map};
ghost use Rattle.trace_text.specs.Sent.{quorum_text, last_text, kept_text, collect_text, pending_number, told_text, vote_text, versions_text};
ghost use Rattle.trace_text.specs.Sent.{cookie_text, key_text, asked_text, chunk_text, agreeing_text, copying_text, fields_text, sent_line};
ghost use Rattle.trace_text.specs.Words.{flag_text};

use crate::step::Numbered;
use crate::words::{flag, kind_word};
use mon_bytes::KeyPlace;
use mon_types::{Pn, RankSet, Version};
use mon_wire::{Body, Cookie, Place, Told};
use schedule_text::{has_ranks, put_ranks};
use std::alloc::AllocError;
use std::fmt::Write;

fn put_quorum(out: &mut String, quorum: RankSet) -> Result<(), AllocError>
    ensures { OnOk result (string_bytes out.new ≡ string_bytes out.old ++ quorum_text quorum) }
{
    out.push_str(" quorum")?;
    if has_ranks(quorum) {
        put_ranks(out, quorum)
    } else {
        out.push_str("=-")
    }
}

fn put_last(out: &mut String, last: Version) -> Result<(), AllocError>
    ensures { OnOk result (string_bytes out.new ≡ string_bytes out.old ++ last_text last) }
{
    let last = last.get();
    write!(out, " last={last}")
}

/// Appends the first and the last version that the sender keeps.
fn put_kept(out: &mut String, first: Version, last: Version) -> Result<(), AllocError>
    ensures { OnOk result (string_bytes out.new ≡ string_bytes out.old ++ kept_text first last) }
{
    let first = first.get();
    let last = last.get();
    write!(out, " first={first} last={last}")
}

fn put_collect(out: &mut String, pn: Pn, first: Version, last: Version) -> Result<(), AllocError>
    ensures { OnOk result (string_bytes out.new ≡ string_bytes out.old ++ collect_text pn first last) }
{
    let pn = pn.get();
    write!(out, " pn={pn}")?;
    put_kept(out, first, last)
}

/// The number of a pending value; if there is none, 0.
fn pending_number(pending: &Option<Told>) -> u64
    ensures { result ≡ pending_number pending.now }
{
    match pending {
        None => 0,
        Some(told) => told.pn.get(),
    }
}

/// Appends the number of committed values, and the number of the pending one.
fn put_told(
    out: &mut String,
    whole: bool,
    count: usize,
    pending: &Option<Told>,
) -> Result<(), AllocError>
    ensures { OnOk result (string_bytes out.new ≡ string_bytes out.old ++ told_text whole count pending.now) }
{
    let whole = flag(whole);
    let pending = pending_number(pending);
    write!(out, " whole={whole} values={count} pending={pending}")
}

fn put_vote(out: &mut String, pn: Pn, version: Version) -> Result<(), AllocError>
    ensures { OnOk result (string_bytes out.new ≡ string_bytes out.old ++ vote_text pn version) }
{
    let pn = pn.get();
    let version = version.get();
    write!(out, " pn={pn} v={version}")
}

/// Appends the first and the last of this many versions.
fn put_versions(out: &mut String, from: Version, count: usize) -> Result<(), AllocError>
    requires { count < 2 ^ 63 }
    ensures { OnOk result (string_bytes out.new ≡ string_bytes out.old ++ versions_text from count) }
{
    let from = from.get();
    let last = (from + count as u64).saturating_sub(1);
    write!(out, " v={from}..{last}")
}

fn put_seq(out: &mut String, seq: u64) -> Result<(), AllocError>
    ensures { OnOk result (string_bytes out.new ≡ string_bytes out.old ++ codes " seq=" ++ decimal seq) }
{
    write!(out, " seq={seq}")
}

fn put_cookie(out: &mut String, cookie: Cookie) -> Result<(), AllocError>
    ensures { OnOk result (string_bytes out.new ≡ string_bytes out.old ++ cookie_text cookie) }
{
    let boot = cookie.boot;
    let seq = cookie.seq;
    write!(out, " cookie={boot}.{seq}")
}

fn put_key(out: &mut String, key: &KeyPlace) -> Result<(), AllocError>
    ensures { OnOk result (string_bytes out.new ≡ string_bytes out.old ++ key_text key.now) }
{
    match key {
        KeyPlace::Start => out.push_str("start"),
        KeyPlace::After { prefix, key } => {
            let prefix = prefix.as_str();
            let key = key.as_str();
            write!(out, "{prefix}/{key}")
        }
        KeyPlace::Done => out.push_str("done"),
    }
}

fn put_asked(out: &mut String, cookie: Cookie, place: &Place) -> Result<(), AllocError>
    ensures { OnOk result (string_bytes out.new ≡ string_bytes out.old ++ asked_text cookie place.now) }
{
    let version = place.version.get();
    put_cookie(out, cookie)?;
    write!(out, " at={version} key=")?;
    put_key(out, &place.key)
}

/// Appends what was asked for, and the numbers of values and entries.
fn put_chunk(
    out: &mut String,
    cookie: Cookie,
    place: &Place,
    values: usize,
    entries: usize,
) -> Result<(), AllocError>
    ensures { OnOk result (string_bytes out.new ≡ string_bytes out.old ++ chunk_text cookie place.now values entries) }
{
    put_asked(out, cookie, place)?;
    write!(out, " values={values} keys={entries}")
}

fn put_granted(
    out: &mut String,
    full: bool,
    cookie: Cookie,
    last: Version,
) -> Result<(), AllocError>
    ensures { OnOk result (string_bytes out.new ≡ string_bytes out.old
        ++ codes " full=" ++ (flag_text full ++ (cookie_text cookie ++ last_text last))) }
{
    let full = flag(full);
    write!(out, " full={full}")?;
    put_cookie(out, cookie)?;
    put_last(out, last)
}

/// Appends the fields of a message of an election or of Paxos, each after a space.
fn put_agreeing(out: &mut String, body: &Body) -> Result<(), AllocError>
    ensures { OnOk result (string_bytes out.new ≡ string_bytes out.old ++ agreeing_text body.now) }
{
    match body {
        Body::ProbeReply {
            quorum,
            first,
            last,
        } => {
            put_quorum(out, *quorum)?;
            put_kept(out, *first, *last)
        }
        Body::Victory { quorum } => put_quorum(out, *quorum),
        Body::Collect { pn, first, last } => put_collect(out, *pn, *first, *last),
        Body::Last {
            pn,
            first,
            last,
            whole,
            values,
            pending,
            ..
        } => {
            put_collect(out, *pn, *first, *last)?;
            put_told(out, *whole, values.as_slice().len(), pending)
        }
        Body::Begin { pn, version, .. } => put_vote(out, *pn, *version),
        Body::Accept { pn, version } => put_vote(out, *pn, *version),
        Body::Commit { from, values } => put_versions(out, *from, values.as_slice().len()),
        Body::Lease { last } => put_last(out, *last),
        Body::LeaseAck { last } => put_last(out, *last),
        Body::Forward { seq, .. } => put_seq(out, *seq),
        Body::Route { seq, .. } => put_seq(out, *seq),
        _ => Ok(()),
    }
}

/// Appends the fields of a message of a synchronization, each after a space.
fn put_copying(out: &mut String, body: &Body) -> Result<(), AllocError>
    ensures { OnOk result (string_bytes out.new ≡ string_bytes out.old ++ copying_text body.now) }
{
    match body {
        Body::GetCookieRecent { last } => put_last(out, *last),
        Body::Cookie { full, cookie, last } => put_granted(out, *full, *cookie, *last),
        Body::GetChunk { cookie, place } => put_asked(out, *cookie, place),
        Body::Chunk {
            cookie,
            place,
            values,
            entries,
            done,
        } => {
            let values = values.as_slice().len();
            put_chunk(out, *cookie, place, values, entries.as_slice().len())?;
            let done = flag(*done);
            write!(out, " done={done}")
        }
        Body::LastChunk {
            cookie,
            place,
            values,
            entries,
            last,
        } => {
            let values = values.as_slice().len();
            put_chunk(out, *cookie, place, values, entries.as_slice().len())?;
            put_last(out, *last)
        }
        Body::NoCookie { cookie } => put_cookie(out, *cookie),
        _ => Ok(()),
    }
}

/// Appends the fields of a message, each after a space.
fn put_fields(out: &mut String, body: &Body) -> Result<(), AllocError>
    ensures { OnOk result (string_bytes out.new ≡ string_bytes out.old ++ fields_text body.now) }
{
    put_agreeing(out, body)?;
    put_copying(out, body)
}

fn put_message(out: &mut String, sent: &Numbered) -> Result<(), AllocError>
    ensures { OnOk result (string_bytes out.new ≡ string_bytes out.old ++ sent_line sent.now) }
{
    let number = sent.number;
    let from = sent.message.from.get();
    let to = sent.to.get();
    let kind = kind_word(&sent.message.body);
    let epoch = sent.message.epoch.get();
    write!(out, "  send {number} {from}>{to} {kind} e={epoch}")?;
    put_fields(out, &sent.message.body)?;
    out.push_str("\n")
}

/// Appends the line of each message, in order.
pub fn put_sent(out: &mut String, sent: &[Numbered]) -> Result<(), AllocError>
    ensures { OnOk result (string_bytes out.new ≡ string_bytes out.old ++ flat_map sent_line sent.now) }
{
    for message in sent {
        put_message(out, message)?;
    }
    Ok(())
}
