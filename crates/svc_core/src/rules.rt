//! The rules of a value: what it changes in every monitor's store.

ghost use Rattle.std.specs.Prelude.{◌≡◌, ◌==◌, ◌%◌, ◌≤◌, ◌^◌, [], ◌∷◌, ◌++◌, map, OnOk};
ghost use Rattle.mon_tx.specs.declared.key.Key.TheVariants as key;
ghost use Rattle.mon_msg.specs.Protocol.Changes.{erase};
ghost use Rattle.mon_msg.specs.Protocol.Rules.{begins, paxos_begins, new_version, full_version, full_between, service_trim, service_trimmed};
ghost use Rattle.mon_msg.specs.declared.limits.TheConstants.{FULL_EVERY};

use mon_bytes::{Bytes, OutOfMemory};
use mon_msg::{FULL_EVERY, SERVICE_DUE, SERVICE_GOES, SERVICE_KEEPS};
use mon_tx::{Area, Key, Transaction};

/// Whether a full map is kept at a version.
pub(crate) fn has_full(n: u64) -> bool
    ensures { result ≡ (n % FULL_EVERY == 0) }
{
    n % FULL_EVERY == 0
}

fn push_begins(tx: &mut Transaction, area: Area) -> Result<(), OutOfMemory>
    ensures { OnOk result (tx.new ≡ tx.old ++ begins area) }
{
    tx.put_number(area, Key::FirstCommitted, 1)
}

/// Appends the first version of the log, if it has none.
pub(crate) fn push_paxos_begins(tx: &mut Transaction, last: u64) -> Result<(), OutOfMemory>
    ensures { OnOk result (tx.new ≡ tx.old ++ paxos_begins last) }
{
    if last == 0 {
        return push_begins(tx, Area::Paxos);
    }
    Ok(())
}

/// Appends the service's version `n`.
pub(crate) fn push_new_version(
    tx: &mut Transaction,
    area: Area,
    n: u64,
    incremental: Bytes,
) -> Result<(), OutOfMemory>
    ensures { OnOk result (tx.new ≡ tx.old ++ new_version area n incremental) }
{
    tx.put(area, Key::Version(n), incremental)?;
    if n == 1 {
        push_begins(tx, area)?;
    }
    tx.put_number(area, Key::LastCommitted, n)
}

/// Appends the full map at version `n`, if one is kept there.
pub(crate) fn push_full_version(
    tx: &mut Transaction,
    area: Area,
    n: u64,
    text: Bytes,
) -> Result<(), OutOfMemory>
    ensures { OnOk result (tx.new ≡ tx.old ++ full_version area n text) }
{
    if !has_full(n) {
        return Ok(());
    }
    tx.put(area, Key::Full(n), text)?;
    tx.put_number(area, Key::FullLatest, n)
}

/// Appends the erasures of the full maps from a version up to but not including another.
fn push_full_erased(tx: &mut Transaction, area: Area, from: u64, to: u64) -> Result<(), OutOfMemory>
    ensures { OnOk result (tx.new ≡ tx.old ++ map (λ v. erase area (key.Full v)) (full_between from to)) }
{
    for v in from..to {
        if has_full(v) {
            tx.erase(area, Key::Full(v))?;
        }
    }
    Ok(())
}

/// Appends what trims the service at version `n`, if `first` is its first one.
pub(crate) fn push_service_trim(
    tx: &mut Transaction,
    area: Area,
    n: u64,
    first: u64,
) -> Result<(), OutOfMemory>
    requires version { n ≤ 2 ^ 62 }
    ensures { OnOk result (tx.new ≡ tx.old ++ service_trim area n first) }
{
    if n.saturating_sub(first) < SERVICE_DUE {
        return Ok(());
    }
    let to = (n - SERVICE_KEEPS).min(first + SERVICE_GOES);
    tx.erase_range(area, first, to)?;
    push_full_erased(tx, area, first, to)?;
    tx.put_number(area, Key::FirstCommitted, to)
}
