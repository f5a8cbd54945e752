ghost use Rattle.std.specs.Prelude.{◌≡◌, false};
ghost use Rattle.mon_store.specs.Whole.{disk_a, disk_b};

use crate::opening::{LiveStore, open_disks};
use crate::stop::OpenRefused;
use crate::store::Store;
use mon_disk::{Disk, NodeDisks};
use mon_types::{Member, Side};
use std::alloc::Global;

/// The store that two disks hold.
fn on<D>(alloc: Global, a: D, b: D, found: LiveStore) -> Store<D>
    ensures a { disk_a result ≡ a }
    ensures b { disk_b result ≡ b }
    ensures side { result.side ≡ found.side }
    ensures journal { result.journal ≡ found.journal }
    ensures map { result.kv ≡ found.kv }
    ensures broken { result.broken ≡ false }
{
    let LiveStore { side, journal, kv } = found;
    let (live, other) = match side {
        Side::A => (a, b),
        Side::B => (b, a),
    };
    Store {
        alloc,
        live,
        other,
        side,
        journal,
        kv,
        broken: false,
    }
}

impl<D: Disk> Store<D> {
    ghost use Rattle.std.specs.Prelude.{is_some, IfOk, IfSome, IsTrue};
    ghost use Rattle.mon_journal.specs.Written.{owner_of};
    ghost use Rattle.mon_store.specs.Times.{WhileOpening, EachPair};
    ghost use Rattle.mon_store.specs.Sound.{StandsOn};
    ghost use Rattle.mon_store.specs.Opening.{Answers, Alike, Settled, stop_in, BothCount};
    ghost use Rattle.mon_store.specs.OpeningCalls.{opening_calls, OpensWith};
    ghost use Rattle.mon_store.specs.Whole.{IsSound, a_after, b_after, answered};

    /// Opens the store on two disks, or creates it on them if both are new. NotAStore, and then Stranger, say what is
    /// wrong with their contents; DiskFault is returned only if a disk counted a fault, and OutOfMemory if memory ran
    /// out. A refusal returns the disks, and what they represent is unchanged. The live file is read twice, the other
    /// one once. Beside the map this needs memory for one record, and for at most 65,536 bytes of a file.
    pub fn open(
        alloc: Global,
        disks: NodeDisks<D>,
        member: Member,
    ) -> Result<Store<D>, OpenRefused<D>>
        ensures sound { IfOk result (IsSound D.state) }
        ensures broken { IfOk result (λ store. store.broken ≡ false) }
        ensures owner { IfOk result (λ store. owner_of store.journal.member ≡ owner_of member) }

        // The store is what the disks held, and after a refusal they represent the same as before.
        ensures answer { IfSome (D.state disks.a).content.seen
            (λ x. IfSome (D.state disks.b).content.seen (λ y. Answers member x y (answered result))) }

        // A crash at any point leaves two files that represent what they might have represented after a crash before
        // the call, and that the member opens with the same result. Each holds what it held then, except the first
        // file of a new store.
        ensures any_time { IsTrue (is_some (D.state disks.a).content.seen)
            → IsTrue (is_some (D.state disks.b).content.seen)
            → WhileOpening (D.state disks.a).content (D.state disks.b).content (D.state (a_after result)).content
            (D.state (b_after result)).content (Alike member (D.state disks.a).content (D.state disks.b).content) }

        // The same holds of what the disks settle to, if their calls and contents can be seen. A new store's first file
        // is there if its gate is open and its last write was begun.
        ensures settles { IsTrue (is_some (D.state disks.a).content.seen)
            → IsTrue (is_some (D.state disks.b).content.seen)
            → IfSome (D.state disks.a).observed
            (λ s. IfSome (D.state (a_after result)).observed
            (λ t. IfSome (D.state (b_after result)).observed
            (λ u. Settled member (D.state disks.a).content (D.state disks.b).content s t u))) }

        // After Ok a crash leaves only the store as it is now.
        ensures safe { IfOk result (λ store. EachPair (D.state (disk_a store)).content (D.state (disk_b store)).content
            (StandsOn store.side store.journal store.kv)) }

        ensures a_visible { is_some (D.state (a_after result)).content.seen ≡ is_some (D.state disks.a).content.seen }
        ensures b_visible { is_some (D.state (b_after result)).content.seen ≡ is_some (D.state disks.b).content.seen }

        // Which writes and syncs were made on the two disks, and what they counted.
        ensures calls { OpensWith (opening_calls (owner_of member)) (D.state disks.a).content.seen
            (D.state disks.b).content.seen (D.state disks.a).observed (D.state disks.b).observed
            (D.state (a_after result)).observed
            (D.state (b_after result)).observed (answered result) }
        ensures counts { BothCount (stop_in (answered result)) (D.state disks.a) (D.state disks.b)
            (D.state (a_after result)) (D.state (b_after result)) }
    {
        let NodeDisks { mut a, mut b } = disks;
        match open_disks(alloc, &mut a, &mut b, &member) {
            Ok(found) => Ok(on(alloc, a, b, found)),
            Err(why) => Err(OpenRefused {
                why,
                disks: NodeDisks { a, b },
            }),
        }
    }
}
