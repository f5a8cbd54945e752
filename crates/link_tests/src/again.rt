//! The link that sends again: which messages it repeats and when, and what it doesn't hand up.

use crate::again_calls::{EARLIER, FORGOTTEN, HEARD, OF_OTHERS, RIVAL, UNHEARD};
use crate::again_copies::{
    ACCEPTED, ACKNOWLEDGED, ANSWERED, BEGUN, COLLECTED, COMMITTED, COMMITTED_BEFORE, COPIED,
    DEFERRED, FORWARDED, GIVEN_UP, LEASED, LEFT_BEHIND, NOT_SOONER, OUTVOTED, ROUTED, SOONER, WON,
};
use crate::again_rows::{
    ACCEPTED_NEXT, ANSWERED_BEFORE, COLLECTED_ANEW, COMMITTED_LATER, COPIED_SINCE, DOUBLED,
    IN_PIECES, LEASED_BEFORE, OUTVOTED_LATER, SOONEST, WON_OTHERWISE,
};
use mon_bytes::Bytes;
use mon_link::{Got, Link, ListClock, MemoryLink, Peer};
use mon_resend::Resending;
use mon_types::{Moment, Rank};
use std::alloc::Global;
use std::test::Fail;

/// What a step does. Its message has a kind, an epoch, and a number that is both the first and the second one of its
/// body.
#[derive(Clone, Copy, PartialEq, Eq)]
pub(crate) enum Does {
    /// A message is sent to monitor 1.
    Sends,
    /// A message is sent to monitor 2.
    SendsToAnother,
    /// A message arrives from monitor 1.
    Hears,
    /// Nothing arrives.
    Rests,
}

/// A step: the time in milliseconds, what is done, the message's kind, epoch and number, how many datagrams are sent
/// then, and whether a datagram is handed up.
pub(crate) type Step = (u64, Does, u8, u64, u64, usize, bool);

pub(crate) const PROBE: u8 = 1;

pub(crate) const PROPOSE: u8 = 3;

pub(crate) const ACK: u8 = 4;

pub(crate) const VICTORY: u8 = 5;

pub(crate) const COLLECT: u8 = 6;

pub(crate) const LAST: u8 = 7;

pub(crate) const BEGIN: u8 = 8;

pub(crate) const ACCEPT: u8 = 9;

pub(crate) const COMMIT: u8 = 10;

pub(crate) const LEASE: u8 = 11;

pub(crate) const LEASE_ACK: u8 = 12;

pub(crate) const FORWARD: u8 = 13;

pub(crate) const ROUTE: u8 = 14;

pub(crate) const GET_COOKIE: u8 = 15;

pub(crate) const GET_COOKIE_RECENT: u8 = 16;

pub(crate) const COOKIE: u8 = 17;

pub(crate) const GET_CHUNK: u8 = 18;

pub(crate) const CHUNK: u8 = 19;

pub(crate) const LAST_CHUNK: u8 = 20;

/// In place of a kind: the second of three pieces of a long message with this number.
pub(crate) const PIECE: u8 = 101;

/// In place of a kind: the third of these pieces.
pub(crate) const LAST_PIECE: u8 = 102;

/// How many bytes a piece has of its message, and how many such a message has.
const PART: u32 = 59_000;

const LONG: u32 = 118_001;

fn piece(alloc: Global, number: u64, place: u32) -> Result<Vec<u8>, Fail> {
    let mut bytes = Vec::from_slice(alloc, &[2, 0, 0, 0])?;
    for field in [number, number] {
        bytes.extend_from_slice(&field.to_le_bytes())?;
    }
    for field in [LONG, place] {
        bytes.extend_from_slice(&field.to_le_bytes())?;
    }
    for _ in place..LONG.min(place.saturating_add(PART)) {
        bytes.push(0)?;
    }
    Ok(bytes)
}

fn message(alloc: Global, kind: u8, epoch: u64, number: u64) -> Result<Vec<u8>, Fail> {
    match kind {
        PIECE => return piece(alloc, number, PART),
        LAST_PIECE => return piece(alloc, number, 2 * PART),
        _ => {}
    }
    let mut bytes = Vec::from_slice(alloc, &[1, kind, 0, 3])?;
    for field in [epoch, number, number] {
        bytes.extend_from_slice(&field.to_le_bytes())?;
    }
    Ok(bytes)
}

fn monitor(rank: u8) -> Result<Peer, Fail> {
    Ok(Peer::Monitor(Rank::new(rank).ok_or("a rank")?))
}

/// What the link below gives in these steps.
fn given(alloc: Global, steps: &[Step]) -> Result<Vec<Got>, Fail> {
    let mut given = Vec::new(alloc);
    for (_, does, kind, epoch, number, _, _) in steps {
        match does {
            Does::Hears => given.push(Got::Datagram {
                from: monitor(1)?,
                bytes: Bytes::new(message(alloc, *kind, *epoch, *number)?),
            })?,
            Does::Rests => given.push(Got::Idle)?,
            Does::Sends | Does::SendsToAnother => {}
        }
    }
    Ok(given)
}

/// What the clock shows in these steps: once for each datagram that is sent, and else before and after the link is asked.
fn shown(alloc: Global, steps: &[Step]) -> Result<Vec<Moment>, Fail> {
    let mut shown = Vec::new(alloc);
    for (time, does, _, _, _, _, _) in steps {
        let moment = Moment::new(*time).ok_or("a moment")?;
        shown.push(moment)?;
        if matches!(does, Does::Hears | Does::Rests) {
            shown.push(moment)?;
        }
    }
    Ok(shown)
}

type Tried = Resending<MemoryLink, ListClock>;

fn tried(alloc: Global, steps: &[Step]) -> Result<Tried, Fail> {
    let link = MemoryLink::new(
        alloc,
        given(alloc, steps)?,
        Vec::new(alloc),
        Vec::new(alloc),
    );
    let clock = ListClock::new(shown(alloc, steps)?);
    Ok(Resending::new(alloc, link, clock))
}

fn sends(alloc: Global, link: &mut Tried, to: u8, step: &Step) -> Result<bool, Fail> {
    let (_, _, kind, epoch, number, _, _) = step;
    let bytes = message(alloc, *kind, *epoch, *number)?;
    link.send(monitor(to)?, &bytes)?;
    drop(bytes);
    Ok(false)
}

/// Asks the link once. Returns whether a datagram is handed up.
fn asks(link: &mut Tried) -> Result<bool, Fail> {
    let got = link.next(60_000)?;
    let is_datagram = matches!(got, Got::Datagram { .. });
    drop(got);
    Ok(is_datagram)
}

/// Whether a step sends and hands up what it states.
fn goes(alloc: Global, link: &mut Tried, step: &Step) -> Result<bool, Fail> {
    let (_, does, _, _, _, sent, is_up) = step;
    let before = link.inner.sent().len();
    let handed_up = match does {
        Does::Sends => sends(alloc, link, 1, step)?,
        Does::SendsToAnother => sends(alloc, link, 2, step)?,
        Does::Hears | Does::Rests => asks(link)?,
    };
    let went = link.inner.sent().len().saturating_sub(before);
    Ok(went == *sent && handed_up == *is_up)
}

/// The time of the first step that doesn't send and hand up what it states.
fn first_wrong(alloc: Global, steps: &[Step]) -> Result<Option<u64>, Fail> {
    let mut link = tried(alloc, steps)?;
    let mut wrong = None;
    for step in steps {
        if wrong.is_none() && !goes(alloc, &mut link, step)? {
            wrong = Some(step.0);
        }
    }
    drop(link);
    Ok(wrong)
}

const CASES: &[(&str, &[Step])] = &[
    ("acknowledged", ACKNOWLEDGED),
    ("outvoted", OUTVOTED),
    ("deferred", DEFERRED),
    ("earlier", EARLIER),
    ("forgotten", FORGOTTEN),
    ("of others", OF_OTHERS),
    ("unheard", UNHEARD),
    ("heard", HEARD),
    ("rival", RIVAL),
    ("leased", LEASED),
    ("sooner", SOONER),
    ("not sooner", NOT_SOONER),
    ("won", WON),
    ("collected", COLLECTED),
    ("begun", BEGUN),
    ("committed", COMMITTED),
    ("committed before", COMMITTED_BEFORE),
    ("forwarded", FORWARDED),
    ("copied", COPIED),
    ("accepted", ACCEPTED),
    ("routed", ROUTED),
    ("answered", ANSWERED),
    ("left behind", LEFT_BEHIND),
    ("given up", GIVEN_UP),
    ("doubled", DOUBLED),
    ("soonest", SOONEST),
    ("outvoted later", OUTVOTED_LATER),
    ("won otherwise", WON_OTHERWISE),
    ("collected anew", COLLECTED_ANEW),
    ("committed later", COMMITTED_LATER),
    ("leased before", LEASED_BEFORE),
    ("copied since", COPIED_SINCE),
    ("in pieces", IN_PIECES),
    ("accepted next", ACCEPTED_NEXT),
    ("answered before", ANSWERED_BEFORE),
];

#[test]
fn each_goes_again_when_it_is_due(rt: HostRuntime) -> Result<(), Fail> {
    for (name, steps) in CASES {
        let wrong = first_wrong(rt.alloc(), steps)?;
        assert!(rt; wrong.is_none(), "{name}: {wrong:?}");
    }
    Ok(())
}
