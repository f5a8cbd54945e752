//! The epoch after changes.

ghost use Rattle.std.specs.Prelude.{◌≡◌, IfOk};
ghost use Rattle.std.specs.List.{list_any};
ghost use Rattle.mon_tx.specs.Map.{apply};
ghost use Rattle.mon_msg.specs.Protocol.Readings.{readings_of, epoch_of};
ghost use Rattle.mon_stored.specs.Epochs.{speaks_of_monitor};

use crate::stored::Stored;
use mon_bytes::OutOfMemory;
use mon_kv::Kv;
use mon_tx::{Area, Op, Transaction};
use mon_types::Epoch;
use std::alloc::Global;

/// Whether a change is of the area that has the epoch.
fn speaks_of_monitor(op: &Op) -> bool
    ensures { result ≡ speaks_of_monitor op.now }
{
    let area = Area::Monitor.as_bytes();
    match op {
        Op::Put { prefix, .. }
        | Op::Erase { prefix, .. }
        | Op::ErasePrefix { prefix }
        | Op::EraseRange { prefix, .. } => area == prefix.as_slice(),
    }
}

fn speak_of_monitor(ops: &[Op]) -> bool
    ensures { result ≡ list_any speaks_of_monitor ops.now }
{
    ops.iter().any(|op| speaks_of_monitor(op))
}

/// The epoch that a store has after changes. It takes memory only if one of the changes is of the epoch's area.
pub fn epoch_after(alloc: Global, kv: &Kv, tx: &Transaction) -> Result<Epoch, OutOfMemory>
    ensures { IfOk result (λ epoch. epoch ≡ epoch_of (readings_of (apply tx.now kv.now))) }
{
    if speak_of_monitor(tx.ops()) {
        let stored = Stored::after(alloc, kv, tx)?;
        return Ok(stored.epoch());
    }
    Ok(Stored::of(alloc, kv).epoch())
}
