//! How far a synchronization has come.

ghost use Rattle.std.specs.Prelude.{◌≡◌, IfOk, if◌then◌else◌};
ghost use Rattle.mon_bytes.specs.declared.entry.KeyPlace.TheVariants as key_place;
ghost use Rattle.mon_msg.specs.Protocol.Copying.{first_place};
ghost use Rattle.mon_msg.specs.Protocol.Places.{after_entries, same_key_place, same_place};

use mon_bytes::{Entry, KeyPlace, OutOfMemory};
use mon_msg::Place;
use mon_types::Version;
use std::alloc::Global;

fn is_same_key_place(a: &KeyPlace, b: &KeyPlace) -> bool
    ensures { result ≡ same_key_place a.now b.now }
{
    match (a, b) {
        (KeyPlace::Start, KeyPlace::Start) | (KeyPlace::Done, KeyPlace::Done) => true,
        (
            KeyPlace::After { prefix, key },
            KeyPlace::After {
                prefix: other_prefix,
                key: other_key,
            },
        ) => prefix.as_slice() == other_prefix.as_slice() && key.as_slice() == other_key.as_slice(),
        _ => false,
    }
}

/// Whether two places are the same.
pub(crate) fn is_same_place(a: &Place, b: &Place) -> bool
    ensures { result ≡ same_place a.now b.now }
{
    a.version == b.version && is_same_key_place(&a.key, &b.key)
}

/// Where a synchronization begins: a whole copy after the provider's last version and before every key, a recent one
/// after the own last version.
pub(crate) fn first_place(full: bool, last: Version, own: Version) -> Place
    ensures { result ≡ first_place full last own }
{
    if full {
        return Place {
            version: last,
            key: KeyPlace::Start,
        };
    }
    Place {
        version: own,
        key: KeyPlace::Done,
    }
}

/// The place after the last of some entries, or the same place if there are none.
fn after_entries(alloc: Global, entries: &[Entry], key: &KeyPlace) -> Result<KeyPlace, OutOfMemory>
    ensures { IfOk result (λ place. place ≡ after_entries entries.now key.now) }
{
    match entries.last() {
        None => key.copy(alloc),
        Some(entry) => Ok(KeyPlace::After {
            prefix: entry.prefix.copy(alloc)?,
            key: entry.key.copy(alloc)?,
        }),
    }
}

/// The place among the keys after a chunk with these entries. If the chunk says that no entry follows, `done`, all keys
/// are passed.
pub(crate) fn next_key_place(
    alloc: Global,
    entries: &[Entry],
    done: bool,
    key: &KeyPlace,
) -> Result<KeyPlace, OutOfMemory>
    ensures { IfOk result (λ place. place ≡ if done then key_place.Done else after_entries entries.now key.now) }
{
    if done {
        return Ok(KeyPlace::Done);
    }
    after_entries(alloc, entries, key)
}
