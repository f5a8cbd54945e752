ghost use Rattle.std.specs.Prelude.{[], IsTrue, IfOk};
ghost use Rattle.std.specs.FinMap.{entries};
ghost use Rattle.mon_bytes.specs.Texts.{is_name};
ghost use Rattle.mon_bytes.specs.Forms.{Reads};
ghost use Rattle.map_kv.specs.Decode.{name_at, set_at, remove_at, key_at, entries_at};

use crate::ascending::Ascending;
use crate::inc::KvInc;
use crate::map::KvMap;
use mon_bytes::{Cursor, Decode, MapRefused, Name, read_text};
use std::alloc::Global;
use std::cmp::Ordering;

#[tactic(auto, unfolding(crate::specs::Decode::name_at))]
fn name_at<'a>(cursor: &mut Cursor<'a>) -> Result<&'a [u8], MapRefused>
    ensures bytes { Reads (λ x. x.now) result cursor.new (name_at cursor.old) }
    ensures name { IfOk result (λ x. IsTrue (is_name x.now)) }
{
    let at = cursor.at();
    let length = cursor.take_u8()?;
    if length == 0 {
        return Err(MapRefused::Form { at });
    }
    let at = cursor.at();
    let bytes = cursor.take_bytes(length as usize)?;
    if !Name::is_form(bytes) {
        return Err(MapRefused::Form { at });
    }
    Ok(bytes)
}

#[tactic(auto, unfolding(crate::specs::Decode::set_at))]
fn set_at(alloc: Global, cursor: &mut Cursor<'_>) -> Result<KvInc, MapRefused>
    ensures { Reads (λ x. x) result cursor.new (set_at cursor.old) }
{
    let key = name_at(cursor)?;
    let value = read_text(alloc, cursor)?;
    let key = Name::from_slice(alloc, key)?;
    Ok(KvInc::Set { key, value })
}

#[tactic(auto, unfolding(crate::specs::Decode::remove_at))]
fn remove_at(alloc: Global, cursor: &mut Cursor<'_>) -> Result<KvInc, MapRefused>
    ensures { Reads (λ x. x) result cursor.new (remove_at cursor.old) }
{
    let key = name_at(cursor)?;
    let key = Name::from_slice(alloc, key)?;
    Ok(KvInc::Remove { key })
}

impl Decode for KvInc {
    ghost use Rattle.map_kv.specs.Decode.{inc_format, inc_of};

    ghost format = { inc_format };

    ghost decoded = { inc_of };

    #[tactic(auto, using(crate::proofs::Laws::inc_is_lawful, crate::proofs::Laws::inc_is_whole), unfolding(crate::specs::Decode::inc_at))]
    fn read(alloc: Global, cursor: &mut Cursor<'_>) -> Result<KvInc, MapRefused> {
        let at = cursor.at();
        match cursor.take_u8()? {
            1 => set_at(alloc, cursor),
            2 => remove_at(alloc, cursor),
            _ => Err(MapRefused::Form { at }),
        }
    }
}

#[tactic(auto, unfolding(crate::specs::Decode::key_at))]
fn key_at<'a>(before: &[u8], cursor: &mut Cursor<'a>) -> Result<&'a [u8], MapRefused>
    ensures bytes { Reads (λ x. x.now) result cursor.new (key_at before.now cursor.old) }
    ensures name { IfOk result (λ x. IsTrue (is_name x.now)) }
{
    let at = cursor.at();
    let key = name_at(cursor)?;
    match before.cmp(key) {
        Ordering::Less => Ok(key),
        _ => Err(MapRefused::Form { at: at + 1 }),
    }
}

fn entries_at(alloc: Global, count: u32, cursor: &mut Cursor<'_>) -> Result<KvMap, MapRefused>
    ensures { Reads entries result cursor.new (entries_at count [] cursor.old) }
{
    let mut map = Ascending::new(alloc);
    let mut before: &[u8] = &[];
    for _ in 0..count {
        let key = key_at(before, cursor)?;
        let value = read_text(alloc, cursor)?;
        map.push(Name::from_slice(alloc, key)?, value)?;
        before = key;
    }
    Ok(map.into_map()?)
}

impl Decode for KvMap {
    ghost use Rattle.map_kv.specs.Decode.{map_format, map_of};

    ghost format = { map_format };

    ghost decoded = { map_of };

    #[tactic(auto, using(crate::proofs::Laws::map_is_lawful, crate::proofs::Laws::map_is_whole))]
    fn read(alloc: Global, cursor: &mut Cursor<'_>) -> Result<KvMap, MapRefused> {
        let count = cursor.take_u32()?;
        entries_at(alloc, count, cursor)
    }
}
