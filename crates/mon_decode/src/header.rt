//! The header of a message, and the numbers that its body begins with.

ghost use Rattle.std.specs.Prelude.{◌≡◌, ◌≤◌, ℕ, false, IfErr};
ghost use Rattle.mon_decode.specs.Headers.{ReadsHeaders, header_at, header_of, kind_byte, none_at, numbers_at, one_at, range_at, ranks_at, same_kind, two_at};
ghost use Rattle.mon_wire.specs.Message.Format.{Reads, no_memory};

use crate::fields::read_count;
use crate::reading::{kind_of, read_epoch, read_format, read_kind, read_sender};
use mon_bytes::Cursor;
use mon_wire::{Kind, MsgRefused};

/// The header of a message, and the numbers that its body begins with. Those that a kind doesn't have are 0.
///
/// | Kind | `first` | `second` |
/// |---|---|---|
/// | VICTORY | the quorum, as a set of bits | |
/// | COLLECT, LAST | the proposal number | |
/// | BEGIN, ACCEPT | the proposal number | the version |
/// | COMMIT | the first version | the last version |
/// | LEASE, LEASE_ACK, GET_COOKIE_RECENT | the last version | |
/// | FORWARD, ROUTE, REQUEST, REPLY | the number of the request | |
/// | GET_CHUNK, CHUNK, LAST_CHUNK, NO_COOKIE | the provider's boot count | the number of the synchronization |
#[derive(Clone, Copy)]
pub struct Header {
    pub kind: Kind,
    /// The sender's rank.
    pub from: u8,
    /// How many monitors the sender's map has.
    pub monitors: u8,
    pub epoch: u64,
    pub first: u64,
    pub second: u64,
}

/// The byte of a kind in a message, from 1 to 25.
pub fn kind_byte(kind: Kind) -> u8
    ensures byte { result ≡ kind_byte kind }
    ensures most { result ≤ 25 }
{
    match kind {
        Kind::Probe => 1,
        Kind::ProbeReply => 2,
        Kind::Propose => 3,
        Kind::Ack => 4,
        Kind::Victory => 5,
        Kind::Collect => 6,
        Kind::Last => 7,
        Kind::Begin => 8,
        Kind::Accept => 9,
        Kind::Commit => 10,
        Kind::Lease => 11,
        Kind::LeaseAck => 12,
        Kind::Forward => 13,
        Kind::Route => 14,
        Kind::GetCookieFull => 15,
        Kind::GetCookieRecent => 16,
        Kind::Cookie => 17,
        Kind::GetChunk => 18,
        Kind::Chunk => 19,
        Kind::LastChunk => 20,
        Kind::NoCookie => 21,
        Kind::Ping => 22,
        Kind::PingReply => 23,
        Kind::Request => 24,
        Kind::Reply => 25,
    }
}

/// Whether two kinds are equal.
pub fn same_kind(a: Kind, b: Kind) -> bool
    ensures { result ≡ same_kind a b }
{
    kind_byte(a) == kind_byte(b)
}

#[tactic(auto, unfolding(crate::specs::Headers::one_at))]
fn read_one(cursor: &mut Cursor<'_>) -> Result<(u64, u64), MsgRefused>
    ensures reads { Reads (λ x. x) result cursor.new (one_at cursor.old) }
    ensures known { IfErr result (λ e. no_memory e ≡ false) }
{
    Ok((read_count(cursor)?, 0))
}

#[tactic(auto, unfolding(crate::specs::Headers::two_at))]
fn read_two(cursor: &mut Cursor<'_>) -> Result<(u64, u64), MsgRefused>
    ensures reads { Reads (λ x. x) result cursor.new (two_at cursor.old) }
    ensures known { IfErr result (λ e. no_memory e ≡ false) }
{
    let first = read_count(cursor)?;
    let second = read_count(cursor)?;
    Ok((first, second))
}

#[tactic(auto, unfolding(crate::specs::Headers::ranks_at))]
fn read_ranks(cursor: &mut Cursor<'_>) -> Result<(u64, u64), MsgRefused>
    ensures reads { Reads (λ x. x) result cursor.new (ranks_at cursor.old) }
    ensures known { IfErr result (λ e. no_memory e ≡ false) }
{
    let ranks = cursor.take_u16()?;
    Ok((u64::from(ranks), 0))
}

#[tactic(auto, unfolding(crate::specs::Headers::range_at))]
fn read_range(cursor: &mut Cursor<'_>) -> Result<(u64, u64), MsgRefused>
    ensures reads { Reads (λ x. x) result cursor.new (range_at cursor.old) }
    ensures known { IfErr result (λ e. no_memory e ≡ false) }
{
    let from = read_count(cursor)?;
    let count = cursor.take_u16()?;
    Ok((from, (from + u64::from(count)).saturating_sub(1)))
}

fn read_numbers(kind: Kind, cursor: &mut Cursor<'_>) -> Result<(u64, u64), MsgRefused>
    ensures reads { Reads (λ x. x) result cursor.new (numbers_at kind cursor.old) }
    ensures known { IfErr result (λ e. no_memory e ≡ false) }
{
    match kind {
        Kind::Victory => read_ranks(cursor),
        Kind::Collect
        | Kind::Last
        | Kind::Lease
        | Kind::LeaseAck
        | Kind::Forward
        | Kind::Route
        | Kind::GetCookieRecent
        | Kind::Request
        | Kind::Reply => read_one(cursor),
        Kind::Begin
        | Kind::Accept
        | Kind::GetChunk
        | Kind::Chunk
        | Kind::LastChunk
        | Kind::NoCookie => read_two(cursor),
        Kind::Commit => read_range(cursor),
        Kind::Probe
        | Kind::ProbeReply
        | Kind::Propose
        | Kind::Ack
        | Kind::GetCookieFull
        | Kind::Cookie
        | Kind::Ping
        | Kind::PingReply => Ok((0, 0)),
    }
}

#[tactic(auto, unfolding(crate::specs::Headers::header_at))]
fn read(cursor: &mut Cursor<'_>) -> Result<Header, MsgRefused>
    ensures reads { Reads (λ x. x) result cursor.new (header_at cursor.old) }
    ensures known { IfErr result (λ e. no_memory e ≡ false) }
{
    read_format(cursor)?;
    let kind = read_kind(cursor)?;
    let sender = read_sender(kind, cursor)?;
    let epoch = read_epoch(kind, cursor)?;
    let kind = kind_of(kind);
    let (first, second) = read_numbers(kind, cursor)?;
    Ok(Header {
        kind,
        from: sender.rank.get(),
        monitors: sender.monitors,
        epoch: epoch.get(),
        first,
        second,
    })
}

/// The header at the front of the bytes. What follows isn't looked at, so the first 28 bytes of a message suffice.
#[tactic(auto, unfolding(crate::specs::Headers::header_of))]
pub fn read_header(bytes: &[u8]) -> Option<Header>
    ensures { result ≡ header_of bytes.now }
{
    let mut cursor = Cursor::new(bytes);
    read(&mut cursor).ok()
}

/// The header of a message's encoding, or of its first 28 bytes or more, is the message's own.
#[tactic(auto, using(crate::proofs::HeaderLaws::reads_headers))]
pub fn law_header()
    ensures { ReadsHeaders }
{}
