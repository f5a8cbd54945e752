//! Trimming the log of Paxos: which versions are erased, and when.

ghost use Rattle.std.specs.Prelude.{◌≡◌, ◌+◌, ◌-◌, ◌<◌, ◌≤◌, ◌^◌, [], ◌++◌, min, IfOk, OnOk};
ghost use Rattle.mon_msg.specs.Protocol.Rules.{paxos_to, paxos_trim};

use mon_bytes::OutOfMemory;
use mon_msg::{PAXOS_DUE, PAXOS_GOES, PAXOS_KEEPS};
use mon_tx::{Area, Key, Op, Transaction};
use std::alloc::Global;

/// Appends the changes that trim the log: an erasure from `first` on, and the new first version. Appends nothing if no
/// trim is due.
pub(crate) fn push_trim(tx: &mut Transaction, first: u64, last: u64) -> Result<(), OutOfMemory>
    requires first { first ≤ 2 ^ 62 }
    requires last { last ≤ 2 ^ 62 }
    ensures { OnOk result (tx.new ≡ tx.old ++ paxos_trim first last) }
{
    if last.saturating_sub(first) <= PAXOS_DUE {
        return Ok(());
    }
    let to = (last - PAXOS_KEEPS).min(first + PAXOS_GOES);
    tx.erase_range(Area::Paxos, first, to)?;
    tx.put_number(Area::Paxos, Key::FirstCommitted, to)
}

/// The changes that trim a log with the versions `first` to `last`. There are none if at most 750 versions follow
/// `first`. Otherwise 500 versions from `first` on are erased, or fewer, so that at least 500 versions follow the new
/// first one. The new first version is put.
pub fn trim_ops(alloc: Global, first: u64, last: u64) -> Result<Vec<Op>, OutOfMemory>
    requires first { first ≤ 2 ^ 62 }
    requires last { last ≤ 2 ^ 62 }
    ensures { IfOk result (λ ops. ops.items ≡ paxos_trim first last) }
{
    let mut tx = Transaction::new(alloc);
    push_trim(&mut tx, first, last)?;
    Ok(tx.into_ops())
}
