//! The bodies of messages, read from left to right.

ghost use Rattle.std.specs.Prelude.{◌≡◌, ℕ, ◌≤◌, true, false};
ghost use Rattle.mon_wire.specs.Message.Format.{Reads};
ghost use Rattle.mon_wire.specs.Message.Bodies.{body_at};

use crate::fields::{read_count, read_flag, read_number, read_value};
use crate::read_client::{read_reply, read_request, read_routed};
use crate::read_lists::{read_list, read_some};
use crate::read_parts::{read_command, read_cookie, read_place, read_told};
use crate::read_scores::{read_set, read_table};
use mon_bytes::Cursor;
use mon_types::Rank;
use mon_wire::{Body, Kind, MsgRefused};
use std::alloc::Global;

fn read_probe_reply(n: u8, cursor: &mut Cursor<'_>) -> Result<Body, MsgRefused>
    requires { n ≤ 15 }
    ensures { (own : ℕ) → Reads (λ x. x) result cursor.new (body_at n own Kind.ProbeReply cursor.old) }
{
    let quorum = read_set(n, cursor)?;
    let first = read_number(cursor)?;
    let last = read_number(cursor)?;
    Ok(Body::ProbeReply {
        quorum,
        first,
        last,
    })
}

fn read_collect(cursor: &mut Cursor<'_>) -> Result<Body, MsgRefused>
    ensures { (n own : ℕ) → Reads (λ x. x) result cursor.new (body_at n own Kind.Collect cursor.old) }
{
    let pn = read_number(cursor)?;
    let first = read_number(cursor)?;
    let last = read_number(cursor)?;
    Ok(Body::Collect { pn, first, last })
}

fn read_last(alloc: Global, cursor: &mut Cursor<'_>) -> Result<Body, MsgRefused>
    ensures { (n own : ℕ) → Reads (λ x. x) result cursor.new (body_at n own Kind.Last cursor.old) }
{
    let pn = read_number(cursor)?;
    let first = read_number(cursor)?;
    let last = read_number(cursor)?;
    let whole = read_flag(cursor)?;
    let from = read_number(cursor)?;
    let values = read_list(alloc, cursor)?;
    let pending = read_told(alloc, cursor)?;
    Ok(Body::Last {
        pn,
        first,
        last,
        whole,
        from,
        values,
        pending,
    })
}

fn read_begin(alloc: Global, cursor: &mut Cursor<'_>) -> Result<Body, MsgRefused>
    ensures { (n own : ℕ) → Reads (λ x. x) result cursor.new (body_at n own Kind.Begin cursor.old) }
{
    let pn = read_number(cursor)?;
    let version = read_number(cursor)?;
    let value = read_value(alloc, cursor)?;
    Ok(Body::Begin { pn, version, value })
}

fn read_accept(cursor: &mut Cursor<'_>) -> Result<Body, MsgRefused>
    ensures { (n own : ℕ) → Reads (λ x. x) result cursor.new (body_at n own Kind.Accept cursor.old) }
{
    let pn = read_number(cursor)?;
    let version = read_number(cursor)?;
    Ok(Body::Accept { pn, version })
}

fn read_commit(alloc: Global, cursor: &mut Cursor<'_>) -> Result<Body, MsgRefused>
    ensures { (n own : ℕ) → Reads (λ x. x) result cursor.new (body_at n own Kind.Commit cursor.old) }
{
    let from = read_number(cursor)?;
    let values = read_some(alloc, cursor)?;
    Ok(Body::Commit { from, values })
}

fn read_forward(alloc: Global, cursor: &mut Cursor<'_>) -> Result<Body, MsgRefused>
    ensures { (n own : ℕ) → Reads (λ x. x) result cursor.new (body_at n own Kind.Forward cursor.old) }
{
    let seq = read_count(cursor)?;
    let command = read_command(alloc, cursor)?;
    Ok(Body::Forward { seq, command })
}

fn read_route(cursor: &mut Cursor<'_>) -> Result<Body, MsgRefused>
    ensures { (n own : ℕ) → Reads (λ x. x) result cursor.new (body_at n own Kind.Route cursor.old) }
{
    let seq = read_count(cursor)?;
    let reply = read_routed(cursor)?;
    Ok(Body::Route { seq, reply })
}

fn read_granted(cursor: &mut Cursor<'_>) -> Result<Body, MsgRefused>
    ensures { (n own : ℕ) → Reads (λ x. x) result cursor.new (body_at n own Kind.Cookie cursor.old) }
{
    let full = read_flag(cursor)?;
    let cookie = read_cookie(cursor)?;
    let last = read_number(cursor)?;
    Ok(Body::Cookie { full, cookie, last })
}

fn read_get_chunk(alloc: Global, cursor: &mut Cursor<'_>) -> Result<Body, MsgRefused>
    ensures { (n own : ℕ) → Reads (λ x. x) result cursor.new (body_at n own Kind.GetChunk cursor.old) }
{
    let cookie = read_cookie(cursor)?;
    let place = read_place(alloc, cursor)?;
    Ok(Body::GetChunk { cookie, place })
}

/// Reads the body of a CHUNK or a LAST_CHUNK. The one ends with whether the entries are at their end, and the other
/// with the provider's last version.
fn read_chunk(alloc: Global, is_last: bool, cursor: &mut Cursor<'_>) -> Result<Body, MsgRefused>
    ensures chunk { is_last ≡ false →
        (n own : ℕ) → Reads (λ x. x) result cursor.new (body_at n own Kind.Chunk cursor.old) }
    ensures last_chunk { is_last ≡ true →
        (n own : ℕ) → Reads (λ x. x) result cursor.new (body_at n own Kind.LastChunk cursor.old) }
{
    let cookie = read_cookie(cursor)?;
    let place = read_place(alloc, cursor)?;
    let values = read_list(alloc, cursor)?;
    let entries = read_list(alloc, cursor)?;
    if is_last {
        let last = read_number(cursor)?;
        return Ok(Body::LastChunk {
            cookie,
            place,
            values,
            entries,
            last,
        });
    }
    let done = read_flag(cursor)?;
    Ok(Body::Chunk {
        cookie,
        place,
        values,
        entries,
        done,
    })
}

fn read_asked(alloc: Global, cursor: &mut Cursor<'_>) -> Result<Body, MsgRefused>
    ensures { (n own : ℕ) → Reads (λ x. x) result cursor.new (body_at n own Kind.Request cursor.old) }
{
    let id = read_count(cursor)?;
    let request = read_request(alloc, cursor)?;
    Ok(Body::Request { id, request })
}

fn read_answered(alloc: Global, cursor: &mut Cursor<'_>) -> Result<Body, MsgRefused>
    ensures { (n own : ℕ) → Reads (λ x. x) result cursor.new (body_at n own Kind.Reply cursor.old) }
{
    let id = read_count(cursor)?;
    let reply = read_reply(alloc, cursor)?;
    Ok(Body::Reply { id, reply })
}

/// Reads what follows the header of a message of the monitor `own` of `n`, by its kind.
pub(crate) fn read_body(
    alloc: Global,
    n: u8,
    own: Rank,
    kind: Kind,
    cursor: &mut Cursor<'_>,
) -> Result<Body, MsgRefused>
    requires { n ≤ 15 }
    ensures { Reads (λ x. x) result cursor.new (body_at n own kind cursor.old) }
{
    match kind {
        Kind::Probe => Ok(Body::Probe),
        Kind::ProbeReply => read_probe_reply(n, cursor),
        Kind::Propose => Ok(Body::Propose {
            table: read_table(alloc, n, own, cursor)?,
        }),
        Kind::Ack => Ok(Body::Ack),
        Kind::Victory => Ok(Body::Victory {
            quorum: read_set(n, cursor)?,
        }),
        Kind::Collect => read_collect(cursor),
        Kind::Last => read_last(alloc, cursor),
        Kind::Begin => read_begin(alloc, cursor),
        Kind::Accept => read_accept(cursor),
        Kind::Commit => read_commit(alloc, cursor),
        Kind::Lease => Ok(Body::Lease {
            last: read_number(cursor)?,
        }),
        Kind::LeaseAck => Ok(Body::LeaseAck {
            last: read_number(cursor)?,
        }),
        Kind::Forward => read_forward(alloc, cursor),
        Kind::Route => read_route(cursor),
        Kind::GetCookieFull => Ok(Body::GetCookieFull),
        Kind::GetCookieRecent => Ok(Body::GetCookieRecent {
            last: read_number(cursor)?,
        }),
        Kind::Cookie => read_granted(cursor),
        Kind::GetChunk => read_get_chunk(alloc, cursor),
        Kind::Chunk => read_chunk(alloc, false, cursor),
        Kind::LastChunk => read_chunk(alloc, true, cursor),
        Kind::NoCookie => Ok(Body::NoCookie {
            cookie: read_cookie(cursor)?,
        }),
        Kind::Ping => Ok(Body::Ping {
            table: read_table(alloc, n, own, cursor)?,
        }),
        Kind::PingReply => Ok(Body::PingReply {
            table: read_table(alloc, n, own, cursor)?,
        }),
        Kind::Request => read_asked(alloc, cursor),
        Kind::Reply => read_answered(alloc, cursor),
    }
}
