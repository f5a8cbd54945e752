//! The parts of messages that are made of fields, read from left to right.

ghost use Rattle.std.specs.Prelude.{◌≡◌};
ghost use Rattle.mon_wire.specs.Message.Format.{Reads};
ghost use Rattle.mon_wire.specs.Message.Parts.{cookie, told, optional, key_place_at, place, entry, command_at, shown_map_at};

use crate::fields::{read_blob, read_count, read_number, read_utf8, read_value, read_word};
use map_kv::KvMap;
use map_log::LogMap;
use mon_bytes::{Command, Cursor, Decode, Entry, KeyPlace, MapRefused};
use mon_wire::{Cookie, MsgKind, MsgRefused, Place, Service, ShownMap, Told};
use std::alloc::Global;

/// Reads a cookie.
pub(crate) fn read_cookie(cursor: &mut Cursor<'_>) -> Result<Cookie, MsgRefused>
    ensures { Reads (λ x. x) result cursor.new (cookie.read cursor.old) }
{
    let boot = read_count(cursor)?;
    let seq = read_count(cursor)?;
    Ok(Cookie { boot, seq })
}

fn read_some_told(alloc: Global, cursor: &mut Cursor<'_>) -> Result<Told, MsgRefused>
    ensures { Reads (λ x. x) result cursor.new (told.read cursor.old) }
{
    let pn = read_number(cursor)?;
    let value = read_value(alloc, cursor)?;
    Ok(Told { pn, value })
}

/// Reads a flag, and with 1 a pending value.
pub(crate) fn read_told(alloc: Global, cursor: &mut Cursor<'_>) -> Result<Option<Told>, MsgRefused>
    ensures { Reads (λ x. x) result cursor.new ((optional told).read cursor.old) }
{
    let at = cursor.at();
    match cursor.take_u8()? {
        0 => Ok(None),
        1 => Ok(Some(read_some_told(alloc, cursor)?)),
        _ => Err(MsgRefused::At {
            at,
            kind: MsgKind::Value,
        }),
    }
}

#[tactic(auto, unfolding(mon_wire::specs::Message::Parts::key_place_at))]
fn read_key_place(alloc: Global, cursor: &mut Cursor<'_>) -> Result<KeyPlace, MsgRefused>
    ensures { Reads (λ x. x) result cursor.new (key_place_at cursor.old) }
{
    let at = cursor.at();
    match cursor.take_u8()? {
        0 => Ok(KeyPlace::Start),
        1 => {
            let prefix = read_word(alloc, cursor)?;
            let key = read_word(alloc, cursor)?;
            Ok(KeyPlace::After { prefix, key })
        }
        2 => Ok(KeyPlace::Done),
        _ => Err(MsgRefused::At {
            at,
            kind: MsgKind::Value,
        }),
    }
}

/// Reads the place of a synchronization: a version, and a place among the keys.
pub(crate) fn read_place(alloc: Global, cursor: &mut Cursor<'_>) -> Result<Place, MsgRefused>
    ensures { Reads (λ x. x) result cursor.new (place.read cursor.old) }
{
    let version = read_number(cursor)?;
    let key = read_key_place(alloc, cursor)?;
    Ok(Place { version, key })
}

/// Reads an entry of the map.
pub(crate) fn read_entry(alloc: Global, cursor: &mut Cursor<'_>) -> Result<Entry, MsgRefused>
    ensures { Reads (λ x. x) result cursor.new (entry.read cursor.old) }
{
    let prefix = read_word(alloc, cursor)?;
    let key = read_word(alloc, cursor)?;
    let value = read_blob(alloc, cursor)?;
    Ok(Entry { prefix, key, value })
}

/// Reads a command.
#[tactic(auto, unfolding(mon_wire::specs::Message::Parts::command_at))]
pub(crate) fn read_command(alloc: Global, cursor: &mut Cursor<'_>) -> Result<Command, MsgRefused>
    ensures { Reads (λ x. x) result cursor.new (command_at cursor.old) }
{
    let at = cursor.at();
    match cursor.take_u8()? {
        1 => {
            let key = read_word(alloc, cursor)?;
            let value = read_utf8(alloc, cursor)?;
            Ok(Command::Set { key, value })
        }
        2 => Ok(Command::Remove {
            key: read_word(alloc, cursor)?,
        }),
        3 => Ok(Command::Log {
            text: read_utf8(alloc, cursor)?,
        }),
        _ => Err(MsgRefused::At {
            at,
            kind: MsgKind::Value,
        }),
    }
}

/// Reads a service's map after the length of its encoding.
#[tactic(auto, unfolding(mon_wire::specs::Message::Parts::shown_map_at))]
pub(crate) fn read_shown_map(
    alloc: Global,
    service: Service,
    cursor: &mut Cursor<'_>,
) -> Result<ShownMap, MsgRefused>
    ensures { Reads (λ x. x) result cursor.new (shown_map_at service cursor.old) }
{
    let length = cursor.take_u32()?;
    let at = cursor.at();
    let bytes = cursor.take_bytes(length as usize)?;
    match service {
        Service::Kv => match KvMap::decode(alloc, bytes) {
            Ok(map) => Ok(ShownMap::Kv(map)),
            Err(MapRefused::OutOfMemory) => Err(MsgRefused::OutOfMemory),
            Err(MapRefused::Form { .. }) => Err(MsgRefused::At {
                at,
                kind: MsgKind::Value,
            }),
        },
        Service::Log => match LogMap::decode(alloc, bytes) {
            Ok(map) => Ok(ShownMap::Log(map)),
            Err(MapRefused::OutOfMemory) => Err(MsgRefused::OutOfMemory),
            Err(MapRefused::Form { .. }) => Err(MsgRefused::At {
                at,
                kind: MsgKind::Value,
            }),
        },
    }
}
