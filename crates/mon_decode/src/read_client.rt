//! Requests and replies, read from left to right.

ghost use Rattle.std.specs.Prelude.{◌≡◌};
ghost use Rattle.mon_wire.specs.Message.Format.{◌⊗◌, Reads, variant, chosen};
ghost use Rattle.mon_wire.specs.Message.Fields.{numeral, flag, utf8, name, service};
ghost use Rattle.mon_wire.specs.Message.Client.{request_at, shown, since, routed_kinds, routed_at, reply_at};

use crate::fields::{read_count, read_flag, read_number, read_service, read_utf8, read_word};
use crate::read_lists::read_list;
use crate::read_parts::read_shown_map;
use mon_bytes::Cursor;
use mon_wire::{MsgKind, MsgRefused, Reply, Request};
use std::alloc::Global;

fn read_set(alloc: Global, cursor: &mut Cursor<'_>) -> Result<Request, MsgRefused>
    ensures { Reads (λ x. x) result cursor.new (variant (name ⊗ utf8) (λ p. Request.Set p.0 p.1) cursor.old) }
{
    let key = read_word(alloc, cursor)?;
    let value = read_utf8(alloc, cursor)?;
    Ok(Request::Set { key, value })
}

fn read_since_version(cursor: &mut Cursor<'_>) -> Result<Request, MsgRefused>
    ensures { Reads (λ x. x) result cursor.new (variant (service ⊗ numeral) (λ p. Request.Since p.0 p.1) cursor.old) }
{
    let service = read_service(cursor)?;
    let version = read_number(cursor)?;
    Ok(Request::Since { service, version })
}

/// Reads a client's request.
#[tactic(auto, unfolding(mon_wire::specs::Message::Client::request_at))]
pub(crate) fn read_request(alloc: Global, cursor: &mut Cursor<'_>) -> Result<Request, MsgRefused>
    ensures { Reads (λ x. x) result cursor.new (request_at cursor.old) }
{
    let at = cursor.at();
    match cursor.take_u8()? {
        1 => read_set(alloc, cursor),
        2 => Ok(Request::Remove {
            key: read_word(alloc, cursor)?,
        }),
        3 => Ok(Request::Log {
            text: read_utf8(alloc, cursor)?,
        }),
        4 => Ok(Request::Show {
            service: read_service(cursor)?,
        }),
        5 => read_since_version(cursor),
        _ => Err(MsgRefused::At {
            at,
            kind: MsgKind::Value,
        }),
    }
}

fn read_shown(alloc: Global, cursor: &mut Cursor<'_>) -> Result<Reply, MsgRefused>
    ensures { Reads (λ x. x) result cursor.new (variant shown (λ p. Reply.Shown p.0 p.1.0 p.1.1.0 p.1.1.1) cursor.old) }
{
    let service = read_service(cursor)?;
    let paxos = read_number(cursor)?;
    let version = read_number(cursor)?;
    let map = read_shown_map(alloc, service, cursor)?;
    Ok(Reply::Shown {
        service,
        paxos,
        version,
        map,
    })
}

fn read_since(alloc: Global, cursor: &mut Cursor<'_>) -> Result<Reply, MsgRefused>
    ensures { Reads (λ x. x) result cursor.new (variant since (λ p. Reply.Since p.0 p.1.0 p.1.1.1 p.1.1.0) cursor.old) }
{
    let service = read_service(cursor)?;
    let from = read_number(cursor)?;
    let more = read_flag(cursor)?;
    let incrementals = read_list(alloc, cursor)?;
    Ok(Reply::Since {
        service,
        from,
        incrementals,
        more,
    })
}

fn read_readable(cursor: &mut Cursor<'_>) -> Result<Reply, MsgRefused>
    ensures { Reads (λ x. x) result cursor.new (variant (numeral ⊗ flag) (λ p. Reply.NotReadable p.0 p.1) cursor.old) }
{
    let has = read_number(cursor)?;
    let lease = read_flag(cursor)?;
    Ok(Reply::NotReadable { has, lease })
}

/// Reads what follows the kind in a leader's reply to a forwarded command. The kind was read at `at`.
fn read_answer(at: usize, kind: u8, cursor: &mut Cursor<'_>) -> Result<Reply, MsgRefused>
    ensures { Reads (λ x. x) result cursor.new (chosen routed_kinds at kind cursor.old) }
{
    match kind {
        1 => Ok(Reply::Done {
            version: read_number(cursor)?,
        }),
        4 => Ok(Reply::NoSuch),
        5 => {
            let len = read_count(cursor)?;
            let most = read_count(cursor)?;
            Ok(Reply::TooLong { len, most })
        }
        6 => Ok(Reply::MapFull {
            would_be: read_count(cursor)?,
        }),
        9 => Ok(Reply::Busy {
            waiting: read_count(cursor)?,
        }),
        _ => Err(MsgRefused::At {
            at,
            kind: MsgKind::Value,
        }),
    }
}

/// Reads a leader's reply to a forwarded command.
#[tactic(auto, unfolding(mon_wire::specs::Message::Client::routed_at))]
pub(crate) fn read_routed(cursor: &mut Cursor<'_>) -> Result<Reply, MsgRefused>
    ensures { Reads (λ x. x) result cursor.new (routed_at cursor.old) }
{
    let at = cursor.at();
    let kind = cursor.take_u8()?;
    read_answer(at, kind, cursor)
}

/// Reads a reply to a client.
#[tactic(auto, unfolding(mon_wire::specs::Message::Client::reply_at))]
pub(crate) fn read_reply(alloc: Global, cursor: &mut Cursor<'_>) -> Result<Reply, MsgRefused>
    ensures { Reads (λ x. x) result cursor.new (reply_at cursor.old) }
{
    let at = cursor.at();
    match cursor.take_u8()? {
        2 => read_shown(alloc, cursor),
        3 => read_since(alloc, cursor),
        7 => Ok(Reply::Unavailable),
        8 => read_readable(cursor),
        kind => read_answer(at, kind, cursor),
    }
}
