//! Messages from their bytes.

ghost use Rattle.std.specs.Prelude.{◌≡◌, ℕ, ◌≤◌, false, List, IfErr, IfOk, Ok};
ghost use Rattle.mon_wire.specs.declared.message.Message.{Message as Said};
ghost use Rattle.mon_wire.specs.Message.Format.{Reads, Gives, no_memory};
ghost use Rattle.mon_wire.specs.Message.Whole.{text, HasText, kind_of, format_at, kind_at, sender_at, epoch_at, message_at, ended, whole_at, message_of};

use crate::fields::read_number;
use crate::read_body::read_body;
use mon_bytes::{Cursor, MOST_MESSAGE};
use mon_types::{Epoch, Member, Rank};
use mon_wire::{Kind, Message, MsgKind, MsgRefused};
use std::alloc::Global;

/// The byte of a client's request, which names no sender and no epoch.
const ASKING: u8 = 24;

/// The kinds, by their bytes from 1 on.
const KINDS: [Kind; 25] = [
    Kind::Probe,
    Kind::ProbeReply,
    Kind::Propose,
    Kind::Ack,
    Kind::Victory,
    Kind::Collect,
    Kind::Last,
    Kind::Begin,
    Kind::Accept,
    Kind::Commit,
    Kind::Lease,
    Kind::LeaseAck,
    Kind::Forward,
    Kind::Route,
    Kind::GetCookieFull,
    Kind::GetCookieRecent,
    Kind::Cookie,
    Kind::GetChunk,
    Kind::Chunk,
    Kind::LastChunk,
    Kind::NoCookie,
    Kind::Ping,
    Kind::PingReply,
    Kind::Request,
    Kind::Reply,
];

/// The kind whose messages have this byte, which is from 1 to 25.
pub fn kind_of(byte: u8) -> Kind
    requires low { 1 ≤ byte }
    requires high { byte ≤ 25 }
    ensures { result ≡ kind_of byte }
{
    KINDS[usize::from(byte) - 1]
}

#[tactic(auto, unfolding(mon_wire::specs::Message::Whole::format_at))]
pub(crate) fn read_format(cursor: &mut Cursor<'_>) -> Result<u8, MsgRefused>
    ensures reads { Reads (λ x. x) result cursor.new (format_at cursor.old) }
    ensures known { IfErr result (λ e. no_memory e ≡ false) }
{
    let at = cursor.at();
    let format = cursor.take_u8()?;
    if format != 1 {
        return Err(MsgRefused::At {
            at,
            kind: MsgKind::Format,
        });
    }
    Ok(format)
}

#[tactic(auto, unfolding(mon_wire::specs::Message::Whole::kind_at))]
pub(crate) fn read_kind(cursor: &mut Cursor<'_>) -> Result<u8, MsgRefused>
    ensures byte { Reads (λ x. x) result cursor.new (kind_at cursor.old) }
    ensures known { IfErr result (λ e. no_memory e ≡ false) }
    ensures low { IfOk result (λ byte. 1 ≤ byte) }
    ensures high { IfOk result (λ byte. byte ≤ 25) }
{
    let at = cursor.at();
    let byte = cursor.take_u8()?;
    if byte == 0 || byte > 25 {
        return Err(MsgRefused::At {
            at,
            kind: MsgKind::Kind,
        });
    }
    Ok(byte)
}

#[tactic(auto, unfolding(mon_wire::specs::Message::Whole::sender_at))]
pub(crate) fn read_sender(kind: u8, cursor: &mut Cursor<'_>) -> Result<Member, MsgRefused>
    ensures reads { Reads (λ m. (m.rank, m.monitors)) result cursor.new (sender_at kind cursor.old) }
    ensures known { IfErr result (λ e. no_memory e ≡ false) }
{
    let at = cursor.at();
    let byte = cursor.take_u8()?;
    let monitors = cursor.take_u8()?;
    if monitors <= byte || monitors > 15 {
        return Err(MsgRefused::At {
            at,
            kind: MsgKind::From,
        });
    }
    if kind == ASKING && byte != 0 {
        return Err(MsgRefused::At {
            at,
            kind: MsgKind::Value,
        });
    }
    Ok(Member {
        rank: Rank::known(byte),
        monitors,
    })
}

#[tactic(auto, unfolding(mon_wire::specs::Message::Whole::epoch_at))]
pub(crate) fn read_epoch(kind: u8, cursor: &mut Cursor<'_>) -> Result<Epoch, MsgRefused>
    ensures reads { Reads (λ x. x) result cursor.new (epoch_at kind cursor.old) }
    ensures known { IfErr result (λ e. no_memory e ≡ false) }
{
    let at = cursor.at();
    let epoch: Epoch = read_number(cursor)?;
    if kind == ASKING && epoch.get() != 0 {
        return Err(MsgRefused::At {
            at,
            kind: MsgKind::Value,
        });
    }
    Ok(epoch)
}

#[tactic(auto, unfolding(mon_wire::specs::Message::Whole::message_at))]
fn read_message(alloc: Global, cursor: &mut Cursor<'_>) -> Result<Message, MsgRefused>
    ensures { Reads (λ x. x) result cursor.new (message_at cursor.old) }
{
    read_format(cursor)?;
    let kind = read_kind(cursor)?;
    let sender = read_sender(kind, cursor)?;
    let epoch = read_epoch(kind, cursor)?;
    let kind = kind_of(kind);
    let body = read_body(alloc, sender.monitors, sender.rank, kind, cursor)?;
    Ok(Message {
        from: sender.rank,
        monitors: sender.monitors,
        epoch,
        body,
    })
}

/// Returns the message, if no byte is left, and otherwise refuses the first one.
#[tactic(auto, unfolding(mon_wire::specs::Message::Whole::ended))]
fn ended(message: Message, cursor: &Cursor<'_>) -> Result<Message, MsgRefused>
    ensures { Gives (λ x. x) result (ended (message, cursor.now)) }
{
    if cursor.left() > 0 {
        drop(message);
        return Err(MsgRefused::At {
            at: cursor.at(),
            kind: MsgKind::Rest,
        });
    }
    Ok(message)
}

#[tactic(auto, unfolding(mon_wire::specs::Message::Whole::message_of, mon_wire::specs::Message::Whole::whole_at))]
fn read(alloc: Global, bytes: &[u8]) -> Result<Message, MsgRefused>
    ensures { Gives (λ x. x) result (message_of bytes.now) }
{
    if bytes.len() > MOST_MESSAGE {
        return Err(MsgRefused::At {
            at: 0,
            kind: MsgKind::TooLong,
        });
    }
    let mut cursor = Cursor::new(bytes);
    let message = read_message(alloc, &mut cursor)?;
    ended(message, &cursor)
}

/// Decodes a message from all of the bytes. A refusal names the first faulty field and its fault. Memory is taken as
/// the bytes are read, and none for items that a message only claims to have.
pub fn decode(alloc: Global, bytes: &[u8]) -> Result<Message, MsgRefused>
    // What is read is the message whose encoding the bytes are.
    ensures found { IfOk result (λ m. HasText m × (bytes.now ≡ text m)) }
    // An encoding is read, unless memory runs out.
    ensures only { (m : Said) → HasText m → bytes.now ≡ text m → Gives (λ x. x) result (Ok m) }
    // Which field is at fault.
    ensures exact { Gives (λ x. x) result (message_of bytes.now) }
{
    read(alloc, bytes)
}
