//! The lives of a process.

ghost use Rattle.std.specs.Prelude.{◌≡◌};
ghost use Rattle.cephmon_run.specs.Lives.{AreLives, scene};

use crate::node::Ended;
use crate::running::run;
use mon_disk::{Disk, NodeDisks};
use mon_link::{Clock, Lives, Sink, Source};
use run_status::Status;
use std::alloc::Global;

/// Does what the arguments ask for, as `run` does, and again in a new life each time after the machine stood still. If the
/// system gives no number for a new life, the status is `LinkFault`.
pub fn run_lives<S: Source, K: Sink, D: Disk, L: Lives, C: Clock>(
    alloc: Global,
    words: &[String],
    source: &mut S,
    sink: &mut K,
    disks: NodeDisks<D>,
    link: &mut L,
    clock: &mut C,
) -> Ended<D>
    ensures lives { AreLives D.state L.state L.history L.stood words.now
        (scene (record { left = S.left source.old; held = K.held sink.old; read_faults = S.faults source.old; write_faults = K.faults sink.old })
        disks link.old (C.left clock.old))
        (record { left = S.left source.new; held = K.held sink.new; read_faults = S.faults source.new; write_faults = K.faults sink.new })
        (record { disks = result.disks; link = L.state link.new; clock = C.left clock.new })
        result.status }
{
    let mut ended = run(alloc, words, source, sink, disks, link, clock);
    for _ in 0..u64::MAX {
        if !link.stood() {
            break;
        }
        let Ended { disks, .. } = ended;
        if link.live_anew().is_err() {
            return Ended {
                status: Status::LinkFault,
                disks,
            };
        }
        ended = run(alloc, words, source, sink, disks, link, clock);
    }
    ended
}
