//! A store made from the export that a source has.

ghost use Rattle.std.specs.Prelude.{◌≡◌, true, false, List, ℕ, Some};
ghost use Rattle.mon_journal.specs.Written.{owner_of};
ghost use Rattle.stopped_stores.specs.Completing.{Hold, ImportCompletes, NoneFailed, Unfailed};
ghost use Rattle.stopped_stores.specs.Importing.{ImportsExport, ReadsMap};

use crate::end::{ToolEnd, Worked};
use mon_disk::{Disk, NodeDisks};
use mon_kv::Kv;
use mon_link::{Source, read_all};
use mon_types::Member;
use std::alloc::Global;
use store_tool::{ExportRefused, import, read_export};

/// One byte more than an export may have, so that a longer input is refused.
pub const MOST_EXPORT_READ: usize = 268_435_472;

fn is_same(a: &Member, b: &Member) -> bool
    ensures same { result ≡ true → owner_of a.now ≡ owner_of b.now }
    ensures other { result ≡ false → ¬ (owner_of a.now ≡ owner_of b.now) }
{
    a.rank.get() == b.rank.get() && a.monitors == b.monitors
}

/// Reads the map of this member's export.
fn read_map<S: Source>(alloc: Global, source: &mut S, member: &Member) -> Result<Kv, ToolEnd>
    ensures { ReadsMap member.now
        (record { bytes = S.left source.old; faults = S.faults source.old })
        (record { bytes = S.left source.new; faults = S.faults source.new }) result }
{
    let bytes = match read_all(alloc, source, MOST_EXPORT_READ) {
        Ok(bytes) => bytes,
        Err(stop) => return Err(ToolEnd::of_reading(stop)),
    };
    match read_export(alloc, bytes.as_slice()) {
        Ok((kept, kv)) => {
            if is_same(&kept, member) {
                Ok(kv)
            } else {
                drop(kv);
                Err(ToolEnd::Stranger {
                    kept,
                    asked: *member,
                })
            }
        }
        Err(ExportRefused::At { at }) => Err(ToolEnd::Export { at }),
        Err(ExportRefused::Full { would_be }) => Err(ToolEnd::Full { would_be }),
        Err(ExportRefused::OutOfMemory) => Err(ToolEnd::OutOfMemory),
    }
}

/// The same as `import_export`, whose contract follows from this one.
fn read_and_import<D: Disk, S: Source>(
    alloc: Global,
    source: &mut S,
    disks: NodeDisks<D>,
    member: &Member,
) -> Worked<D>
    ensures { ImportsExport D.state member.now disks result.disks
        (record { bytes = S.left source.old; faults = S.faults source.old })
        (record { bytes = S.left source.new; faults = S.faults source.new }) result.end }
{
    match read_map(alloc, source, member) {
        Ok(kv) => {
            let imported = import(alloc, disks, *member, &kv);
            Worked {
                end: ToolEnd::of_import(imported.end),
                disks: imported.disks,
            }
        }
        Err(end) => Worked { end, disks },
    }
}

/// Reads a member's export, and makes a store of its map on two empty disks. No call is made on the disks before the
/// whole export was read and is the member's. After `Done` the store is durable. A crash before that leaves what the
/// disks held, two closed files, or the whole store.
pub fn import_export<D: Disk, S: Source>(
    alloc: Global,
    source: &mut S,
    disks: NodeDisks<D>,
    member: &Member,
) -> Worked<D>
    // The cause of each end.
    ensures cause { ImportsExport D.state member.now disks result.disks
        (record { bytes = S.left source.old; faults = S.faults source.old })
        (record { bytes = S.left source.new; faults = S.faults source.new }) result.end }

    // Which end is returned if nothing fails.
    ensures complete { NoneFailed D.state disks result.disks → Unfailed
        (record { bytes = S.left source.old; faults = S.faults source.old })
        (record { bytes = S.left source.new; faults = S.faults source.new })
        → (bytes a b : List ℕ) → S.left source.old ≡ Some bytes → Hold D.state disks a b
        → ImportCompletes member.now bytes a b result.end }
{
    read_and_import(alloc, source, disks, member)
}
