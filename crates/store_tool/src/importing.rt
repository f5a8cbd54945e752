//! A store made from a map, on two empty disks.

ghost use Rattle.std.specs.Prelude.{◌≡◌, ◌≤◌, ℕ, List, Ok, is_some, IfSome, Some};
ghost use Rattle.mon_kv.specs.Readers.{size_of, most_size};
ghost use Rattle.mon_types.specs.declared.names.Side.{Side};
ghost use Rattle.mon_journal.specs.Written.{owner_of};
ghost use Rattle.mon_store.specs.Times.{EachPair};
ghost use Rattle.mon_store.specs.Opening.{BothCount};
ghost use Rattle.mon_store.specs.Pair.{stands};
ghost use Rattle.store_tool.specs.Import.{Answers, stop_in, Whole, KeepThenMake, WhileImporting, IfWritten, import_calls, MakesObserved};

use crate::making::{filled, make_both};
use mon_disk::{Disk, NodeDisks};
use mon_kv::Kv;
use mon_types::{Member, Side, Stop};
use std::alloc::Global;

/// How an import ended.
#[derive(Clone, Copy, PartialEq, Eq)]
pub enum ImportEnd {
    /// The store was made, and a crash leaves it.
    Done,
    /// This disk isn't empty; disk A is tested first. Nothing was written or synced.
    NotEmpty { disk: Side },
    /// A disk failed. The disks are closed or hold the whole map, or each holds what it held before.
    DiskFault,
    OutOfMemory,
}

/// How an import ended, and the disks.
#[derive(Drop)]
pub struct Imported<D> {
    pub end: ImportEnd,
    pub disks: NodeDisks<D>,
}

fn stopped(stop: Stop) -> ImportEnd
    ensures outside { stop_in result ≡ Some stop }
    ensures answer { (a b : List ℕ) → Answers a b result }
{
    match stop {
        Stop::Failed => ImportEnd::DiskFault,
        Stop::OutOfMemory => ImportEnd::OutOfMemory,
    }
}

fn import_on<D: Disk>(alloc: Global, a: &mut D, b: &mut D, member: Member, kv: &Kv) -> ImportEnd
    requires { size_of kv.now ≤ most_size }
    ensures answer { IfSome (D.state a.old).content.seen
        (λ x. IfSome (D.state b.old).content.seen (λ y. Answers x y result)) }
    ensures any_time { WhileImporting member kv.now (D.state a.old).content (D.state b.old).content
        (D.state a.new).content (D.state b.new).content }
    ensures written { IfWritten (D.state a.old).observed (D.state a.new).observed (KeepThenMake member kv.now
        (D.state a.old).content (D.state b.old).content (D.state a.new).content (D.state b.new).content) }
    ensures untouched { (disk : Side) → result ≡ ImportEnd.NotEmpty disk
        → ((D.state a.new).content.seen ≡ (D.state a.old).content.seen)
        × ((D.state b.new).content.seen ≡ (D.state b.old).content.seen) }
    ensures safe { result ≡ ImportEnd.Done
        → EachPair (D.state a.new).content (D.state b.new).content (Whole member kv.now) }
    ensures a_visible { is_some (D.state a.new).content.seen ≡ is_some (D.state a.old).content.seen }
    ensures b_visible { is_some (D.state b.new).content.seen ≡ is_some (D.state b.old).content.seen }
    ensures calls { IfSome (D.state a.old).content.seen
        (λ x. IfSome (D.state b.old).content.seen
        (λ y. MakesObserved (import_calls (owner_of member) kv.now x y) (D.state a.old).observed
        (D.state b.old).observed
        (D.state a.new).observed (D.state b.new).observed (stop_in result))) }
    ensures counts { BothCount (stop_in result) (D.state a.old) (D.state b.old) (D.state a.new) (D.state b.new) }
{
    match filled(a, b) {
        Ok(None) => match make_both(alloc, a, b, member, kv) {
            Ok(()) => ImportEnd::Done,
            Err(stop) => stopped(stop),
        },
        Ok(Some(disk)) => ImportEnd::NotEmpty { disk },
        Err(stop) => stopped(stop),
    }
}

/// Makes a store of this member and this map on two empty disks. It looks at their lengths, syncs both, and then makes
/// a file on disk A with a checkpoint as its first record. If a disk isn't empty, it changes nothing.
pub fn import<D: Disk>(alloc: Global, disks: NodeDisks<D>, member: Member, kv: &Kv) -> Imported<D>
    requires { size_of kv.now ≤ most_size }

    // Done is returned only if both disks were empty, and NotEmpty names the first one that wasn't.
    ensures answer { IfSome (D.state disks.a).content.seen
        (λ x. IfSome (D.state disks.b).content.seen (λ y. Answers x y result.end)) }

    // Until both disks were synced, a crash leaves on each what it might have left before the call. From then on it
    // leaves two closed files, or the store of the whole map.
    ensures any_time { WhileImporting member kv.now (D.state disks.a).content (D.state disks.b).content
        (D.state result.disks.a).content (D.state result.disks.b).content }

    // If more than one call was made on disk A, both disks were synced before.
    ensures written { IfWritten (D.state disks.a).observed (D.state result.disks.a).observed (KeepThenMake member kv.now
        (D.state disks.a).content (D.state disks.b).content (D.state result.disks.a).content
        (D.state result.disks.b).content) }

    // After NotEmpty the disks hold what they held.
    ensures untouched { (disk : Side) → result.end ≡ ImportEnd.NotEmpty disk
        → ((D.state result.disks.a).content.seen ≡ (D.state disks.a).content.seen)
        × ((D.state result.disks.b).content.seen ≡ (D.state disks.b).content.seen) }

    // After Done a crash leaves the store as it is: two files that hold the map.
    ensures safe { result.end ≡ ImportEnd.Done
        → EachPair (D.state result.disks.a).content (D.state result.disks.b).content (Whole member kv.now) }
    ensures map { result.end ≡ ImportEnd.Done
        → EachPair (D.state result.disks.a).content (D.state result.disks.b).content
        (λ c d. stands c d ≡ Ok kv.now) }

    ensures a_visible { is_some (D.state result.disks.a).content.seen ≡ is_some (D.state disks.a).content.seen }
    ensures b_visible { is_some (D.state result.disks.b).content.seen ≡ is_some (D.state disks.b).content.seen }

    // Which writes and syncs were made on the two disks, and what they counted.
    ensures calls { IfSome (D.state disks.a).content.seen
        (λ x. IfSome (D.state disks.b).content.seen
        (λ y. MakesObserved (import_calls (owner_of member) kv.now x y) (D.state disks.a).observed
        (D.state disks.b).observed
        (D.state result.disks.a).observed (D.state result.disks.b).observed (stop_in result.end))) }
    ensures counts { BothCount (stop_in result.end) (D.state disks.a) (D.state disks.b) (D.state result.disks.a)
        (D.state result.disks.b) }
{
    let NodeDisks { mut a, mut b } = disks;
    let end = import_on(alloc, &mut a, &mut b, member, kv);
    Imported {
        end,
        disks: NodeDisks { a, b },
    }
}
