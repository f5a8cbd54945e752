//! Whether an encoded key-value map holds a key, found without building the map.

ghost use Rattle.std.specs.Prelude.{◌≡◌, Ok, Some, [], IfSome};
ghost use Rattle.map_kv.specs.Decode.{name_at, key_at, entries_at, map_of};
ghost use Rattle.mon_bytes.specs.Forms.{text_at};
ghost use Rattle.svc_core.specs.Scan.{entries_hold, map_holds};

use mon_bytes::{Cursor, Name};
use std::cmp::Ordering;
use std::str;

/// A name after its length.
#[tactic(auto, unfolding(map_kv::specs::Decode::name_at))]
fn name_at<'a>(cursor: &mut Cursor<'a>) -> Option<&'a [u8]>
    ensures { IfSome result (λ name. name_at cursor.old ≡ Ok (name.now, cursor.new)) }
{
    let Ok(length) = cursor.take_u8() else {
        return None;
    };
    if length == 0 {
        return None;
    }
    let Ok(name) = cursor.take_bytes(usize::from(length)) else {
        return None;
    };
    if !Name::is_form(name) {
        return None;
    }
    Some(name)
}

/// A name above the key before it.
#[tactic(auto, unfolding(map_kv::specs::Decode::key_at))]
fn key_at<'a>(before: &[u8], cursor: &mut Cursor<'a>) -> Option<&'a [u8]>
    ensures { IfSome result (λ key. key_at before.now cursor.old ≡ Ok (key.now, cursor.new)) }
{
    let Some(key) = name_at(cursor) else {
        return None;
    };
    match before.cmp(key) {
        Ordering::Less => Some(key),
        _ => None,
    }
}

/// A text after its length.
fn text_at<'a>(cursor: &mut Cursor<'a>) -> Option<&'a [u8]>
    ensures { IfSome result (λ text. text_at cursor.old ≡ Ok (text.now, cursor.new)) }
{
    let Ok(length) = cursor.take_u32() else {
        return None;
    };
    let Ok(text) = cursor.take_bytes(length as usize) else {
        return None;
    };
    let Ok(_) = str::from_utf8(text) else {
        return None;
    };
    Some(text)
}

/// Whether one of the next entries has the key, if they are entries of a map.
fn entries_hold(count: u32, key: &[u8], cursor: &mut Cursor<'_>) -> Option<bool>
    ensures { IfSome result
        (λ held. entries_hold key.now (entries_at count [] cursor.old) ≡ Some (held, cursor.new)) }
{
    let mut held = false;
    let mut before: &[u8] = &[];
    for _ in 0..count {
        let Some(name) = key_at(before, cursor) else {
            return None;
        };
        let Some(_) = text_at(cursor) else {
            return None;
        };
        held |= key == name;
        before = name;
    }
    Some(held)
}

/// Whether the map that all of the bytes encode holds the key, if they encode one. It takes no memory.
pub(crate) fn map_holds(bytes: &[u8], key: &[u8]) -> Option<bool>
    ensures { IfSome result (λ held. map_holds key.now (map_of bytes.now) ≡ Some held) }
{
    let mut cursor = Cursor::new(bytes);
    let Ok(count) = cursor.take_u32() else {
        return None;
    };
    let held = entries_hold(count, key, &mut cursor)?;
    if cursor.left() != 0 {
        return None;
    }
    Some(held)
}
