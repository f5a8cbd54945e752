//! A checkpoint of a map.

ghost use Rattle.std.specs.Prelude.{◌≡◌, ◌≤◌, ◌++◌, OnOk};
ghost use Rattle.std.specs.FinMap.{len};
ghost use Rattle.mon_kv.specs.Readers.{entry_of, size_of};
ghost use Rattle.mon_store.specs.Checkpoint.{value_text, entry_text, checkpoint_text, most_size, EntryFits, HasCheckpoint};

use mon_bytes::{Out, OutOfMemory, write_count};
use mon_kv::{EntryRef, Kv};

/// The byte that a checkpoint begins with. No transaction does.
pub const CHECKPOINT: u8 = 0x80;

fn put_entry(out: &mut Out, entry: &EntryRef<'_>) -> Result<(), OutOfMemory>
    requires { EntryFits (entry_of entry.now) }
    ensures { OnOk result (out.new ≡ out.old ++ entry_text (entry_of entry.now)) }
{
    out.put_word(entry.prefix)?;
    out.put_word(entry.key)?;
    write_count(out, entry.value.len() as u32)?;
    out.put_bytes(entry.value)
}

/// How many entries there are.
fn count(kv: &Kv) -> u32
    requires { size_of kv.now ≤ most_size }
    ensures { result ≡ len kv.now }
{
    let mut count = 0;
    let mut next = kv.next_entry(&[], &[]);
    while let Some(entry) = next {
        count += 1;
        next = kv.next_entry(entry.prefix, entry.key);
    }
    count
}

/// Appends a checkpoint of the map. Its time is that of two look-ups for each entry, and it takes memory for the
/// bytes alone. After an `Err` a prefix of it may be there.
pub fn write_checkpoint(out: &mut Out, kv: &Kv) -> Result<(), OutOfMemory>
    requires { size_of kv.now ≤ most_size }
    ensures text { OnOk result (out.new ≡ out.old ++ checkpoint_text kv.now) }
    ensures form { OnOk result (HasCheckpoint kv.now) }
{
    out.put_u8(CHECKPOINT)?;
    write_count(out, count(kv))?;
    let mut next = kv.next_entry(&[], &[]);
    while let Some(entry) = next {
        put_entry(out, &entry)?;
        next = kv.next_entry(entry.prefix, entry.key);
    }
    Ok(())
}
