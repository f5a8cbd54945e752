//! A client that follows, the commands on a stopped store, and the comparison of two reports.

ghost use Rattle.std.specs.Prelude.{◌≤◌, ◌^◌};
ghost use Rattle.stopped_stores.specs.Importing.{ImportsExport};
ghost use Rattle.stopped_stores.specs.Reading.{Compares};
ghost use Rattle.stopped_stores.specs.Texts.{WritesText};
ghost use Rattle.cephmon_run.specs.Further.{Followed};
ghost use Rattle.cephmon_run.specs.Talking.{FollowTalks};
ghost use Rattle.run_status.specs.Status.{StatusOf, status_of_follow, status_of_tool};

use crate::node::Ended;
use map_follower::{Follower, follow};
use mon_disk::{Disk, NodeDisks};
use mon_link::{Link, Sink, Source};
use mon_types::Member;
use mon_wire::Service;
use run_status::Status;
use std::alloc::Global;
use stopped_stores::{StoreText, compare_reports, import_export, write_text};

/// Follows a service of this number of monitors over the link, and writes a line for each newer version to the sink.
pub fn run_follow<L: Link, K: Sink>(
    alloc: Global,
    service: Service,
    monitors: u8,
    turns: u64,
    link: &mut L,
    sink: &mut K,
) -> Status
    requires least { 1 ≤ monitors }
    requires most { monitors ≤ 15 }
    requires turns { turns ≤ 2 ^ 61 }
    ensures follows { StatusOf status_of_follow (Followed service monitors turns
        (record { bytes = K.held sink.old; faults = K.faults sink.old })
        (record { bytes = K.held sink.new; faults = K.faults sink.new })
        (L.state link.old) (L.state link.new)) result }
    ensures talks { FollowTalks service monitors turns
        (record { bytes = K.held sink.old; faults = K.faults sink.old })
        (record { bytes = K.held sink.new; faults = K.faults sink.new })
        (L.state link.old) (L.state link.new) result (L.history link.old) (L.history link.new) }
{
    let mut follower = Follower::new(alloc, service);
    let end = follow(alloc, &mut follower, monitors, link, sink, turns);
    drop(follower);
    Status::of_follow(end)
}

/// Writes a text of the store on the disks to the sink.
pub fn run_text<D: Disk, K: Sink>(
    alloc: Global,
    what: StoreText,
    member: &Member,
    disks: NodeDisks<D>,
    sink: &mut K,
) -> Ended<D>
    ensures { StatusOf status_of_tool (WritesText D.state member.now disks result.disks
        (record { bytes = K.held sink.old; faults = K.faults sink.old })
        (record { bytes = K.held sink.new; faults = K.faults sink.new }) what) result.status }
{
    let worked = write_text(alloc, disks, member, what, sink);
    Ended {
        status: Status::of_tool(worked.end),
        disks: worked.disks,
    }
}

/// Reads an export from the source, and makes a store of it on the disks.
pub fn run_import<D: Disk, S: Source>(
    alloc: Global,
    member: &Member,
    disks: NodeDisks<D>,
    source: &mut S,
) -> Ended<D>
    ensures { StatusOf status_of_tool (ImportsExport D.state member.now disks result.disks
        (record { bytes = S.left source.old; faults = S.faults source.old })
        (record { bytes = S.left source.new; faults = S.faults source.new })) result.status }
{
    let worked = import_export(alloc, source, disks, member);
    Ended {
        status: Status::of_tool(worked.end),
        disks: worked.disks,
    }
}

/// Reads two reports from the source, and writes to the sink where they differ.
pub fn run_compare<S: Source, K: Sink>(alloc: Global, source: &mut S, sink: &mut K) -> Status
    ensures { StatusOf status_of_tool (Compares
        (record { bytes = S.left source.old; faults = S.faults source.old })
        (record { bytes = S.left source.new; faults = S.faults source.new })
        (record { bytes = K.held sink.old; faults = K.faults sink.old })
        (record { bytes = K.held sink.new; faults = K.faults sink.new })) result }
{
    Status::of_tool(compare_reports(alloc, source, sink))
}
