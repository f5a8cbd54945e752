//! Runs of entries, as a monitor sends them to one that copies its map.

ghost use Rattle.std.specs.Prelude.{◌≡◌, IsTrue, IfOk};
ghost use Rattle.mon_bytes.specs.Texts.{is_prefix};
ghost use Rattle.mon_tx.specs.Keys.{number};
ghost use Rattle.mon_tx.specs.declared.key.Area.TheVariants as area;
ghost use Rattle.mon_tx.specs.declared.key.Key.TheVariants as named;
ghost use Rattle.mon_kv.specs.Readers.{entries_after, found_of};
ghost use Rattle.mon_kv.specs.Chunks.{shared_of, shared_after, entry_len, plain, IsLongestRun};

use crate::kv::Kv;
use crate::local::is_local;
use crate::next::Found;
use mon_bytes::{Entry, KeyPlace, OutOfMemory, Prefix};
use std::alloc::Global;

/// A run of shared entries, in order.
#[derive(Drop)]
pub struct KeyRun {
    pub entries: Vec<Entry>,
    /// Whether no shared entry follows.
    pub done: bool,
}

/// How many bytes an entry takes in a message.
fn entry_len(found: &Found<'_>) -> usize
    ensures { result ≡ entry_len (found_of found.now) }
{
    found.prefix.as_slice().len() + found.key.as_slice().len() + found.value.as_slice().len() + 6
}

/// A copy of an entry.
fn copied(alloc: Global, found: &Found<'_>) -> Result<Entry, OutOfMemory>
    requires { IsTrue (is_prefix found.now.prefix.now) }
    ensures { IfOk result (λ entry. plain entry ≡ found_of found.now) }
{
    let Some(prefix) = Prefix::new(Vec::from_slice(alloc, found.prefix.as_slice())?) else {
        unreachable!()
    };
    Ok(Entry {
        prefix,
        key: found.key.copy(alloc)?,
        value: found.value.copy(alloc)?,
    })
}

impl Kv {
    ghost use Rattle.std.specs.FinMap.{entries};

    /// The longest run of at most `most` shared entries after the place, in order, that take at most `room` bytes
    /// together in a message. Nothing is after `Done`.
    pub fn chunk_from<'a>(
        &'a self,
        after: &'a KeyPlace,
        room: usize,
        most: usize,
    ) -> Result<KeyRun, OutOfMemory>
        ensures { IfOk result (IsLongestRun (shared_after self.now after.now) room most) }
    {
        let alloc = self.allocator();
        match after {
            KeyPlace::Start => self.run_from(b"", b"", room, most),
            KeyPlace::After { prefix, key } => {
                self.run_from(prefix.as_slice(), key.as_slice(), room, most)
            }
            KeyPlace::Done => Ok(KeyRun {
                entries: Vec::new(alloc),
                done: true,
            }),
        }
    }

    fn run_from<'a>(
        &'a self,
        prefix: &'a [u8],
        key: &'a [u8],
        room: usize,
        most: usize,
    ) -> Result<KeyRun, OutOfMemory>
        ensures { IfOk result (IsLongestRun
            (shared_of (number self.now area.Paxos named.LastCommitted) (entries_after self.now (prefix.now, key.now)))
            room most) }
    {
        let last = self.last_committed();
        let (mut passed_prefix, mut passed_key) = (prefix, key);
        let mut left = room;
        let mut entries = Vec::new(self.allocator());
        while let Some(found) = self.next_found(passed_prefix, passed_key) {
            passed_prefix = found.prefix.as_slice();
            passed_key = found.key.as_slice();
            if is_local(passed_prefix, passed_key, last) {
                continue;
            }
            let len = entry_len(&found);
            if entries.len() == most || len > left {
                return Ok(KeyRun {
                    entries,
                    done: false,
                });
            }
            left -= len;
            entries.push(copied(self.allocator(), &found)?)?;
        }
        Ok(KeyRun {
            entries,
            done: true,
        })
    }
}
