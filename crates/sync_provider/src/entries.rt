//! How much of a monitor's shared entries a chunk takes.

ghost use Rattle.std.specs.Prelude.{◌≡◌, ℕ, ◌+◌, ◌-◌, ◌≤◌, ◌<◌, ◌^◌, List, [], false, nat_le, take, min, sum_by, length, IfOk};
ghost use Rattle.mon_bytes.specs.declared.limits.TheConstants.{MOST_MESSAGE};
ghost use Rattle.mon_tx.specs.declared.op.Op.{Op};
ghost use Rattle.mon_msg.specs.Protocol.Parts.{entry_length, place_length, value_length};
ghost use Rattle.mon_msg.specs.Protocol.Providing.{is_finished, reach};
ghost use Rattle.mon_wire.specs.declared.parts.Cookie.{Cookie};
ghost use Rattle.mon_wire.specs.declared.write_lists.TheConstants.{MOST_ITEMS};
ghost use Rattle.sync_provider.specs.declared.entries.TheConstants.{BESIDES_LAST};
ghost use Rattle.sync_provider.specs.Rows.{remaining_after};
ghost use Rattle.sync_provider.specs.Taken.{IsTaken, IsGiven};

use mon_bytes::{Entry, OutOfMemory};
use mon_kv::{KeyRun, Kv};
use mon_msg::{MOST_ITEMS, MOST_MESSAGE, Place};
use mon_wire::entry_len;

/// How many bytes a CHUNK takes besides its place, its values and its entries.
pub(crate) const BESIDES: usize = 33;

/// How many bytes a LAST_CHUNK takes besides its place, its values and its entries.
pub(crate) const BESIDES_LAST: usize = 40;

fn entries_len(entries: &[Entry]) -> usize
    ensures { result ≡ min (sum_by entry_length entries.now) (2 ^ 64 - 1) }
{
    let mut len = 0usize;
    for entry in entries {
        len = len.saturating_add(entry_len(entry));
    }
    len
}

/// Whether no shared entry follows a place.
pub(crate) fn is_end(kv: &Kv, place: &Place) -> Result<bool, OutOfMemory>
    ensures { IfOk result (λ end. end ≡ is_finished place.now (remaining_after kv.now place.now.key) []) }
{
    let found = kv.chunk_from(&place.key, 0, 0)?;
    Ok(found.done)
}

/// Whether a last chunk whose place and values take `bytes` bytes has room for these entries.
fn are_last(entries: &[Entry], bytes: usize) -> bool
    ensures { result ≡ nat_le (BESIDES_LAST + bytes + sum_by entry_length entries.now) MOST_MESSAGE }
{
    entries_len(entries)
        .saturating_add(bytes)
        .saturating_add(BESIDES_LAST)
        <= MOST_MESSAGE
}

/// A run without its last entry, which then follows the run.
fn without_last(run: KeyRun) -> KeyRun
    ensures entries { result.entries.items ≡ take (length run.entries.items - 1) run.entries.items }
    ensures done { result.done ≡ false }
{
    let mut entries = run.entries;
    let _last = entries.pop();
    KeyRun {
        entries,
        done: false,
    }
}

/// The shared entries after a place, as many as fit into a chunk whose place and values take `bytes` bytes, and whether
/// none follows them. Each entry is copied once.
fn longest_entries(kv: &Kv, place: &Place, bytes: usize) -> Result<KeyRun, OutOfMemory>
    ensures { IfOk result (IsTaken (remaining_after kv.now place.now.key) bytes) }
{
    let room = MOST_MESSAGE.saturating_sub(BESIDES).saturating_sub(bytes);
    let found = kv.chunk_from(&place.key, room, MOST_ITEMS)?;
    if !found.done {
        return Ok(found);
    }
    if found.entries.is_empty() {
        return Ok(found);
    }
    if are_last(&found.entries, bytes) {
        return Ok(found);
    }
    Ok(without_last(found))
}

/// The entries of a chunk whose place and values take `bytes` bytes, and whether none follows them. There are no
/// entries unless the values reach the last version, which `reaches` says.
pub(crate) fn given_entries(
    kv: &Kv,
    place: &Place,
    bytes: usize,
    reaches: bool,
) -> Result<KeyRun, OutOfMemory>
    ensures { IfOk result (λ run. (last n : ℕ) (c : Cookie) (values : List (List Op)) →
        reach last place.now values ≡ reaches → length values ≤ MOST_ITEMS →
        bytes ≡ place_length place.now + sum_by value_length values →
        IsGiven last c place.now (remaining_after kv.now place.now.key) n values run) }
{
    if !reaches {
        return kv.chunk_from(&place.key, 0, 0);
    }
    longest_entries(kv, place, bytes)
}
