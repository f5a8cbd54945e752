//! The run of a node.

ghost use Rattle.std.specs.Prelude.{◌≡◌};
ghost use Rattle.cephmon_run.specs.Node.{NodeCause, NodeTalks};

use mon_disk::{Disk, NodeDisks};
use mon_link::{Clock, Link};
use mon_msg::Me;
use mon_node::serve;
use mon_store::Store;
use run_status::Status;
use std::alloc::Global;

/// A run that ended, with the disks that it was given.
#[derive(Drop)]
pub struct Ended<D> {
    pub status: Status,
    pub disks: NodeDisks<D>,
}

/// Opens the store on the disks, and serves from it.
pub fn run_node<D: Disk, L: Link, C: Clock>(
    alloc: Global,
    disks: NodeDisks<D>,
    me: &Me,
    link: &mut L,
    clock: &mut C,
    turns: u64,
) -> Ended<D>
    ensures cause { NodeCause D.state me.now turns
        (record { disks = disks; link = L.state link.old; clock = C.left clock.old })
        (record { disks = result.disks; link = L.state link.new; clock = C.left clock.new })
        result.status }
    ensures talks { NodeTalks D.state me.now turns
        (record { disks = disks; link = L.state link.old; clock = C.left clock.old })
        (record { disks = result.disks; link = L.state link.new; clock = C.left clock.new })
        result.status (L.history link.old) (L.history link.new) }
{
    match Store::open(alloc, disks, me.member) {
        Ok(store) => {
            let served = serve(alloc, store, me.member, me.rule, link, clock, turns);
            Ended {
                status: Status::of_end(served.end),
                disks: served.disks,
            }
        }
        Err(refused) => Ended {
            status: Status::of_opening(refused.why),
            disks: refused.disks,
        },
    }
}
