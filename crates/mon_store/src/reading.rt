//! A map from a checkpoint.

ghost use Rattle.std.specs.Prelude.{[], IsTrue, IfOk};
ghost use Rattle.std.specs.FinMap.{entries};
ghost use Rattle.mon_bytes.specs.Texts.{is_word, is_name, is_prefix};
ghost use Rattle.mon_bytes.specs.Forms.{Reads, Gives};
ghost use Rattle.mon_kv.specs.Readers.{entry_of};
ghost use Rattle.mon_store.specs.Decode.{word_at, value_at, prefix_at, key_at, entry_at, entries_at, map_at, checkpoint_of};

use crate::checkpoint::CHECKPOINT;
use mon_bytes::{Cursor, MOST_NAME, MOST_PREFIX, MapRefused, Word};
use mon_kv::{EntryRef, Kv};
use std::alloc::Global;
use std::cmp::Ordering;

#[tactic(auto, unfolding(crate::specs::Decode::word_at))]
fn word_at<'a, const MOST: usize>(cursor: &mut Cursor<'a>) -> Result<&'a [u8], MapRefused>
    ensures bytes { Reads (λ x. x.now) result cursor.new (word_at MOST cursor.old) }
    ensures word { IfOk result (λ x. IsTrue (is_word MOST x.now)) }
{
    let at = cursor.at();
    let length = cursor.take_u8()? as usize;
    if length == 0 || length > MOST {
        return Err(MapRefused::Form { at });
    }
    let at = cursor.at();
    let bytes = cursor.take_bytes(length)?;
    if !Word::<MOST>::is_form(bytes) {
        return Err(MapRefused::Form { at });
    }
    Ok(bytes)
}

#[tactic(auto, unfolding(crate::specs::Decode::value_at))]
fn value_at<'a>(cursor: &mut Cursor<'a>) -> Result<&'a [u8], MapRefused>
    ensures { Reads (λ x. x.now) result cursor.new (value_at cursor.old) }
{
    let length = cursor.take_u32()?;
    Ok(cursor.take_bytes(length as usize)?)
}

#[tactic(auto, unfolding(crate::specs::Decode::prefix_at))]
fn prefix_at<'a>(before: &[u8], cursor: &mut Cursor<'a>) -> Result<&'a [u8], MapRefused>
    ensures bytes { Reads (λ x. x.now) result cursor.new (prefix_at before.now cursor.old) }
    ensures form { IfOk result (λ x. IsTrue (is_prefix x.now)) }
{
    let at = cursor.at();
    let prefix = word_at::<MOST_PREFIX>(cursor)?;
    match prefix.cmp(before) {
        Ordering::Less => Err(MapRefused::Form { at: at + 1 }),
        _ => Ok(prefix),
    }
}

#[tactic(auto, unfolding(crate::specs::Decode::key_at))]
fn key_at<'a>(
    before_prefix: &[u8],
    before_key: &[u8],
    prefix: &[u8],
    cursor: &mut Cursor<'a>,
) -> Result<&'a [u8], MapRefused>
    ensures bytes { Reads (λ x. x.now) result cursor.new
        (key_at (before_prefix.now, before_key.now) prefix.now cursor.old) }
    ensures form { IfOk result (λ x. IsTrue (is_name x.now)) }
{
    let at = cursor.at();
    let key = word_at::<MOST_NAME>(cursor)?;
    match before_prefix.cmp(prefix).then(before_key.cmp(key)) {
        Ordering::Less => Ok(key),
        _ => Err(MapRefused::Form { at: at + 1 }),
    }
}

#[tactic(auto, unfolding(crate::specs::Decode::entry_at))]
fn entry_at<'a>(
    before_prefix: &[u8],
    before_key: &[u8],
    cursor: &mut Cursor<'a>,
) -> Result<EntryRef<'a>, MapRefused>
    ensures entry { Reads entry_of result cursor.new (entry_at (before_prefix.now, before_key.now) cursor.old) }
    ensures form { IfOk result (λ e. IsTrue (is_prefix e.prefix.now) × IsTrue (is_name e.key.now)) }
{
    let prefix = prefix_at(before_prefix, cursor)?;
    let key = key_at(before_prefix, before_key, prefix, cursor)?;
    let value = value_at(cursor)?;
    Ok(EntryRef { prefix, key, value })
}

fn entries_at(alloc: Global, count: u32, cursor: &mut Cursor<'_>) -> Result<Kv, MapRefused>
    ensures { Reads entries result cursor.new (entries_at count ([], []) cursor.old) }
{
    let mut kv = Kv::empty(alloc);
    let (mut prefix, mut key): (&[u8], &[u8]) = (&[], &[]);
    for _ in 0..count {
        let entry = entry_at(prefix, key, cursor)?;
        kv.put(entry.prefix, entry.key, entry.value)?;
        prefix = entry.prefix;
        key = entry.key;
    }
    Ok(kv)
}

#[tactic(auto, unfolding(crate::specs::Decode::map_at))]
fn map_at(alloc: Global, cursor: &mut Cursor<'_>) -> Result<Kv, MapRefused>
    ensures { Reads (λ kv. kv) result cursor.new (map_at cursor.old) }
{
    let at = cursor.at();
    if cursor.take_u8()? != CHECKPOINT {
        return Err(MapRefused::Form { at });
    }
    let count = cursor.take_u32()?;
    entries_at(alloc, count, cursor)
}

/// Decodes a checkpoint, after which no byte may follow. `Form` names the first byte of the first faulty field. Time:
/// one look-up per entry.
#[tactic(auto, unfolding(crate::specs::Decode::checkpoint_of, mon_bytes::specs::Forms::ended))]
pub fn read_checkpoint(alloc: Global, cursor: &mut Cursor<'_>) -> Result<Kv, MapRefused>
    ensures { Gives (λ kv. kv) result (checkpoint_of cursor.old) }
{
    let kv = map_at(alloc, cursor)?;
    if cursor.left() != 0 {
        return Err(MapRefused::Form { at: cursor.at() });
    }
    Ok(kv)
}
