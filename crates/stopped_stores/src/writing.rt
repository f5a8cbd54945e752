//! The texts of an opened store's map.

ghost use Rattle.std.specs.Prelude.{◌≡◌, ◌≤◌, IfOk, List, ℕ};
ghost use Rattle.mon_kv.specs.Readers.{size_of, most_size};
ghost use Rattle.stopped_stores.specs.Completing.{Hold, NoneFailed, TextCompletes, Unfailed};
ghost use Rattle.stopped_stores.specs.Texts.{WritesText, WritesAll, text_of};

use crate::end::{ToolEnd, Worked};
use mon_bytes::OutOfMemory;
use mon_disk::{Disk, NodeDisks};
use mon_kv::Kv;
use mon_link::{Sink, write_all};
use mon_scrub::{print, scrub};
use mon_store::Store;
use mon_types::Member;
use std::alloc::Global;
use store_tool::{dump_keys, dump_paxos, export};

/// A text of a store's map.
#[derive(Clone, Copy, PartialEq, Eq)]
pub enum StoreText {
    /// The report of what the monitor shares with the others.
    Report,
    /// One line per key.
    Keys,
    /// The versions of Paxos from `from` up to and with `to`, but none after the last committed one, and their changes.
    Versions { from: u64, to: u64 },
    /// The export of the member and the map.
    Export,
}

fn text_of(alloc: Global, what: StoreText, member: &Member, kv: &Kv) -> Result<Vec<u8>, OutOfMemory>
    requires { size_of kv.now ≤ most_size }
    ensures { IfOk result (λ text. text.items ≡ text_of what member.now kv.now) }
{
    match what {
        StoreText::Report => {
            let report = scrub(kv, *member)?;
            print(alloc, &report)
        }
        StoreText::Keys => dump_keys(alloc, kv),
        StoreText::Versions { from, to } => dump_paxos(alloc, kv, from, to),
        StoreText::Export => export(alloc, kv, *member),
    }
}

/// Writes a text of the map to the sink.
fn write_map<K: Sink>(
    alloc: Global,
    what: StoreText,
    member: &Member,
    kv: &Kv,
    sink: &mut K,
) -> ToolEnd
    requires { size_of kv.now ≤ most_size }
    ensures { WritesAll (text_of what member.now kv.now)
        (record { bytes = K.held sink.old; faults = K.faults sink.old })
        (record { bytes = K.held sink.new; faults = K.faults sink.new }) result }
{
    let Ok(text) = text_of(alloc, what, member, kv) else {
        return ToolEnd::OutOfMemory;
    };
    match write_all(sink, text.as_slice()) {
        Ok(()) => ToolEnd::Done,
        Err(stop) => ToolEnd::of_writing(stop),
    }
}

/// The same as `write_text`, whose contract follows from this one.
fn write<D: Disk, K: Sink>(
    alloc: Global,
    disks: NodeDisks<D>,
    member: &Member,
    what: StoreText,
    sink: &mut K,
) -> Worked<D>
    ensures { WritesText D.state member.now disks result.disks
        (record { bytes = K.held sink.old; faults = K.faults sink.old })
        (record { bytes = K.held sink.new; faults = K.faults sink.new }) what result.end }
{
    match Store::open(alloc, disks, *member) {
        Ok(store) => {
            let end = write_map(alloc, what, member, store.kv(), sink);
            Worked {
                end,
                disks: store.close(),
            }
        }
        Err(refused) => Worked {
            end: ToolEnd::of_opening(refused.why),
            disks: refused.disks,
        },
    }
}

/// Opens the member's store on two disks, or creates it if both are new, and writes a text of its map to the sink. The
/// map on the disks stays as it was, and a store of an earlier format isn't rewritten. The end names the first cause: a
/// refusal of the disks, a write that failed, or lack of memory.
pub fn write_text<D: Disk, K: Sink>(
    alloc: Global,
    disks: NodeDisks<D>,
    member: &Member,
    what: StoreText,
    sink: &mut K,
) -> Worked<D>
    // The cause of each end.
    ensures cause { WritesText D.state member.now disks result.disks
        (record { bytes = K.held sink.old; faults = K.faults sink.old })
        (record { bytes = K.held sink.new; faults = K.faults sink.new }) what result.end }

    // Which end is returned if nothing fails.
    ensures complete { NoneFailed D.state disks result.disks → Unfailed
        (record { bytes = K.held sink.old; faults = K.faults sink.old })
        (record { bytes = K.held sink.new; faults = K.faults sink.new })
        → (a b : List ℕ) → Hold D.state disks a b → TextCompletes member.now a b result.end }
{
    write(alloc, disks, member, what, sink)
}
