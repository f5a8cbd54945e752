//! The fields of messages, read from left to right.

ghost use Rattle.std.specs.Prelude.{◌≡◌, ℕ, ◌≤◌, ◌<◌, ◌^◌, false, length, IsTrue, IfErr, IfOk};
ghost use Rattle.mon_bytes.specs.Texts.{is_word};
ghost use Rattle.mon_wire.specs.Message.Format.{Reads, no_memory};
ghost use Rattle.mon_wire.specs.Message.Fields.{number_at, flag_at, set_at, blob_at, text_at, word_at, value_at, service_at};

use mon_bytes::{Bytes, Cursor, Name, OutOfMemory, Prefix, Text, Word};
use mon_tx::{Transaction, TxRefused};
use mon_types::{Number, OfVersion, Rank, RankSet};
use mon_wire::{MsgKind, MsgRefused, Service};
use std::alloc::Global;

/// Reads a number of at most 2^62.
#[tactic(auto, unfolding(mon_wire::specs::Message::Fields::number_at))]
pub(crate) fn read_number<K: Copy>(cursor: &mut Cursor<'_>) -> Result<Number<K>, MsgRefused>
    ensures reads { Reads (λ x. x) result cursor.new (number_at cursor.old) }
    ensures known { IfErr result (λ e. no_memory e ≡ false) }
{
    let at = cursor.at();
    let number = cursor.take_u64()?;
    match Number::new(number) {
        Some(number) => Ok(number),
        None => Err(MsgRefused::At {
            at,
            kind: MsgKind::Number,
        }),
    }
}

/// Reads a number of at most 2^62 that has no type of its own.
pub(crate) fn read_count(cursor: &mut Cursor<'_>) -> Result<u64, MsgRefused>
    ensures number { Reads (λ x. x) result cursor.new (number_at cursor.old) }
    ensures most { IfOk result (λ n. n ≤ 2 ^ 62) }
    ensures known { IfErr result (λ e. no_memory e ≡ false) }
{
    match read_number::<OfVersion>(cursor) {
        Ok(number) => Ok(number.get()),
        Err(refused) => Err(refused),
    }
}

/// Reads a byte 0 or 1.
#[tactic(auto, unfolding(mon_wire::specs::Message::Fields::flag_at))]
pub(crate) fn read_flag(cursor: &mut Cursor<'_>) -> Result<bool, MsgRefused>
    ensures { Reads (λ x. x) result cursor.new (flag_at cursor.old) }
{
    let at = cursor.at();
    let flag = cursor.take_u8()?;
    if flag > 1 {
        return Err(MsgRefused::At {
            at,
            kind: MsgKind::Value,
        });
    }
    Ok(flag == 1)
}

/// Reads bytes after their length in four bytes.
#[tactic(auto, unfolding(mon_wire::specs::Message::Fields::blob_at))]
pub(crate) fn read_slice<'a>(cursor: &mut Cursor<'a>) -> Result<&'a [u8], MsgRefused>
    ensures { Reads (λ x. x.now) result cursor.new (blob_at cursor.old) }
{
    let length = cursor.take_u32()?;
    Ok(cursor.take_bytes(length as usize)?)
}

/// Reads bytes after their length in four bytes, and copies them.
pub(crate) fn read_blob(alloc: Global, cursor: &mut Cursor<'_>) -> Result<Bytes, MsgRefused>
    ensures { Reads (λ x. x) result cursor.new (blob_at cursor.old) }
{
    let bytes = read_slice(cursor)?;
    let bytes = Vec::from_slice(alloc, bytes).map_err(OutOfMemory::from)?;
    Ok(Bytes::new(bytes))
}

/// Reads UTF-8 after its length in four bytes.
#[tactic(auto, unfolding(mon_wire::specs::Message::Fields::text_at))]
pub(crate) fn read_utf8(alloc: Global, cursor: &mut Cursor<'_>) -> Result<Text, MsgRefused>
    ensures { Reads (λ x. x) result cursor.new (text_at cursor.old) }
{
    let length = cursor.take_u32()?;
    let at = cursor.at();
    let bytes = cursor.take_bytes(length as usize)?;
    let bytes = Vec::from_slice(alloc, bytes).map_err(OutOfMemory::from)?;
    match Text::new(bytes) {
        Some(text) => Ok(text),
        None => Err(MsgRefused::At {
            at,
            kind: MsgKind::Value,
        }),
    }
}

/// Reads a prefix or a key after its length in one byte.
#[tactic(auto, unfolding(mon_wire::specs::Message::Fields::word_at))]
pub(crate) fn read_word<const MOST: usize>(
    alloc: Global,
    cursor: &mut Cursor<'_>,
) -> Result<Word<MOST>, MsgRefused>
    ensures { Reads (λ x. x) result cursor.new (word_at MOST cursor.old) }
{
    let at = cursor.at();
    let length = usize::from(cursor.take_u8()?);
    if length == 0 || length > MOST {
        return Err(MsgRefused::At {
            at,
            kind: MsgKind::Value,
        });
    }
    let at = cursor.at();
    let bytes = cursor.take_bytes(length)?;
    let bytes = Vec::from_slice(alloc, bytes).map_err(OutOfMemory::from)?;
    match Word::new(bytes) {
        Some(word) => Ok(word),
        None => Err(MsgRefused::At {
            at,
            kind: MsgKind::Value,
        }),
    }
}

/// Reads a transaction after the length of its encoding in four bytes.
#[tactic(auto, unfolding(mon_wire::specs::Message::Fields::value_at))]
pub(crate) fn read_value(alloc: Global, cursor: &mut Cursor<'_>) -> Result<Transaction, MsgRefused>
    ensures { Reads (λ x. x) result cursor.new (value_at cursor.old) }
{
    let length = cursor.take_u32()?;
    let at = cursor.at();
    let bytes = cursor.take_bytes(length as usize)?;
    match mon_tx::decode(alloc, bytes) {
        Ok(value) => Ok(value),
        Err(TxRefused::OutOfMemory) => Err(MsgRefused::OutOfMemory),
        Err(_) => Err(MsgRefused::At {
            at,
            kind: MsgKind::Value,
        }),
    }
}

/// Reads the byte of a service.
#[tactic(auto, unfolding(mon_wire::specs::Message::Fields::service_at))]
pub(crate) fn read_service(cursor: &mut Cursor<'_>) -> Result<Service, MsgRefused>
    ensures { Reads (λ x. x) result cursor.new (service_at cursor.old) }
{
    let at = cursor.at();
    match cursor.take_u8()? {
        1 => Ok(Service::Kv),
        2 => Ok(Service::Log),
        _ => Err(MsgRefused::At {
            at,
            kind: MsgKind::Value,
        }),
    }
}
