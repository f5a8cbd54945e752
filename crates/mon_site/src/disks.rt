//! Two disks at rest, before an event in which one fails and after it.

ghost use Rattle.std.specs.Prelude.{◌≡◌, ◌≤◌, None, IfOk};
ghost use Rattle.mon_tx.specs.Map.{Store as Map};
ghost use Rattle.mon_types.specs.declared.member.Member.{Member};
ghost use Rattle.quorum_model.specs.Files.{Files};
ghost use Rattle.mon_site.specs.Faults.{IsReady, Rests, Settles};

use crate::injected::InjectedFault;
use mon_bytes::OutOfMemory;
use mon_disk::{MemoryDisk, NodeDisks};
use mon_types::Side;

/// Injects a fault into one of two disks.
pub fn inject_one(disks: NodeDisks<MemoryDisk>, injected: InjectedFault) -> NodeDisks<MemoryDisk>
    requires calm_a { disks.a.life.upset ≡ None }
    requires calm_b { disks.b.life.upset ≡ None }
    requires first { 1 ≤ injected.call }
    requires most { injected.image ≤ 3 }
    ensures { (member : Member) (m : Map) (f : Files) → Rests member m f disks.a disks.b →
        IsReady injected.disk injected.call injected.image member m f result.a result.b }
{
    let NodeDisks { mut a, mut b } = disks;
    match injected.disk {
        Side::A => a.upset(injected.call, injected.image),
        Side::B => b.upset(injected.call, injected.image),
    }
    NodeDisks { a, b }
}

/// Turns two disks into what they settle to after a crash. The injected fault is gone.
pub fn settle_both(disks: NodeDisks<MemoryDisk>) -> Result<NodeDisks<MemoryDisk>, OutOfMemory>
    ensures { IfOk result (λ rest. (member : Member) (m : Map) (f : Files) → Settles member m f disks.a disks.b →
        Rests member m f rest.a rest.b) }
{
    let NodeDisks { mut a, mut b } = disks;
    a.settle()?;
    b.settle()?;
    Ok(NodeDisks { a, b })
}
