ghost use Rattle.std.specs.Prelude.{◌≡◌, ℕ, List, false};
ghost use Rattle.mon_node.specs.Hearing.{Given, faults_at};
ghost use Rattle.mon_node.specs.Keeping.{DisksCountAt};
ghost use Rattle.mon_node.specs.Lasting.{BothVisible, StandsThrough};
ghost use Rattle.mon_node.specs.Nodes.{unstarted, store_view_of, disks, disks_of};
ghost use Rattle.mon_node.specs.Serving.{Serves};
ghost use Rattle.mon_node.specs.Talking.{Talks};
ghost use Rattle.mon_store.specs.Whole.{IsSound, disk_a, disk_b};

use crate::end::{NodeEnd, Served};
use crate::server::Server;
use election_rules::Rule;
use mon_core::Input;
use mon_disk::Disk;
use mon_link::{Clock, Link};
use mon_msg::Me;
use mon_store::Store;
use mon_types::Member;
use std::alloc::Global;

/// Serves as a monitor over a link, a clock and a store, for at most `turns` iterations. It starts, which isn't an
/// iteration; then each iteration takes the timer that is due, or else asks the link once, and waits at most a second
/// and never past the next timer. The transaction of an input is kept, and a checkpoint made if one is due, before
/// anything is sent. The store is one that `Store::open` returned, and that no call broke.
///
/// The end is `Closed` if and only if the link reported it, `TurnsUsed` if and only if that many iterations were made,
/// and `Spent` or `Full` if and only if that number or the map would pass its bound. It is `LinkFault` or `DiskFault`
/// only if a fault was counted.
///
/// The disks are returned. A crash at any point of an iteration leaves on them the store as it was when the iteration
/// began, with the record of its transaction, or with the checkpoint. The same holds after a disk's fault and if memory
/// ran out. After every other end they hold the store that the iterations made. A transaction that would make the map
/// too large leaves the disks as they are, and nothing of its iteration is sent. If anything of an iteration was sent,
/// its transaction is kept.
pub fn serve<D: Disk, L: Link, C: Clock>(
    alloc: Global,
    store: Store<D>,
    member: Member,
    rule: Rule,
    link: &mut L,
    clock: &mut C,
    turns: u64,
) -> Served<D>
    requires unbroken { store.broken ≡ false }
    requires sound { IsSound D.state store }

    // What clock and link gave to each iteration determines all results, and what a crash leaves of two disks whose
    // contents can be seen. Each history of the link goes on with what the iterations asked and sent.
    ensures serves { let start = unstarted member.rank (store_view_of store) (C.left clock.old)
        (L.state link.old).observed in
        let old = disks_of D.state store in let new = disks D.state result.disks.a result.disks.b in
        (first : ℕ) × (given : List Given)
        × Serves (record { member = member; rule = rule }) start turns result.end result.turns (C.left clock.new)
        (L.state link.new).observed first given
        × (BothVisible old → StandsThrough (record { member = member; rule = rule }) first start given result.end
        (L.state link.new).observed old new)
        × Talks (record { member = member; rule = rule }) first start given result.end
        (L.history link.old) (L.history link.new) old new }

    ensures faults { (L.state link.new).faults ≡ faults_at result.end (L.state link.old).faults }
    ensures counts { DisksCountAt result.end
        (D.state (disk_a store)).faults (D.state (disk_b store)).faults (D.state result.disks.a).faults (D.state result.disks.b).faults }
{
    let me = Me { member, rule };
    let mut server = Server::new(alloc, store, &me);
    let first = clock.now();
    if let Err(end) = server.take(link, &Input::Start, first) {
        return server.end(end, 0);
    }
    for done in 0..turns {
        if let Err(end) = server.iteration(link, clock) {
            return server.end(end, done + 1);
        }
    }
    server.end(NodeEnd::TurnsUsed, turns)
}
