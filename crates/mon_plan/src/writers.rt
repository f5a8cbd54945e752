//! What a role writes, change by change. Each call appends exactly the ops that encode its change.

ghost use Rattle.std.specs.Prelude.{◌≡◌, [], ◌∷◌, ◌++◌, ◌+◌, ◌≤◌, ◌^◌, length, IfOk, OnOk};
ghost use Rattle.std.specs.List.{AllByRecursion};
ghost use Rattle.mon_tx.specs.Text.{text, most};
ghost use Rattle.mon_msg.specs.Protocol.Changes.{Boot, Epoch, Numbers, Promise, Vote, Record, Learn, Copy, Last, Mark, Unmark, ops_of, encoded, erase_all, put_back};
ghost use Rattle.mon_msg.specs.Protocol.Chunks.{record_changes, copy_changes};
ghost use Rattle.mon_msg.specs.Protocol.Learning.{learn_changes};
ghost use Rattle.mon_msg.specs.Protocol.Played.{Fits};
ghost use Rattle.mon_plan.specs.Learned.{Learns, learned};

use mon_bytes::{Bytes, Entry, OutOfMemory};
use mon_msg::RoleStop;
use mon_tx::{Area, EncodeRefused, Key, Op, Transaction};
use mon_types::{Epoch, Pn, Version, Which};

/// Encodes a value, which must be short enough for a transaction.
fn value_bytes(value: &Transaction) -> Result<Bytes, OutOfMemory>
    requires { length (text value.now) ≤ most }
    ensures { IfOk result (λ bytes. bytes ≡ text value.now) }
{
    match value.encode() {
        Ok(bytes) => Ok(Bytes::new(bytes)),
        Err(EncodeRefused::OutOfMemory) => Err(OutOfMemory),
        Err(EncodeRefused::TooLong { .. }) => unreachable!(),
    }
}

/// Writes how often the monitor has started.
pub fn put_boot(tx: &mut Transaction, boot: u64) -> Result<(), OutOfMemory>
    requires { boot ≤ 2 ^ 62 }
    ensures changes { OnOk result (tx.new ≡ tx.old ++ ops_of (Boot boot)) }
    ensures fit { Fits (Boot boot) }
{
    tx.put_number(Area::Monitor, Key::BootCount, boot)
}

/// Writes the monitor's epoch.
pub fn put_epoch(tx: &mut Transaction, epoch: Epoch) -> Result<(), OutOfMemory>
    ensures changes { OnOk result (tx.new ≡ tx.old ++ ops_of (Epoch epoch)) }
    ensures fit { Fits (Epoch epoch) }
{
    tx.put_number(Area::Monitor, Key::ElectionEpoch, epoch.get())
}

/// Writes a proposal number that this monitor makes, and so also promises.
pub fn put_numbers(tx: &mut Transaction, pn: Pn) -> Result<(), OutOfMemory>
    ensures changes { OnOk result (tx.new ≡ tx.old ++ ops_of (Numbers pn)) }
    ensures fit { Fits (Numbers pn) }
{
    tx.put_number(Area::Paxos, Key::LastPn, pn.get())?;
    tx.put_number(Area::Paxos, Key::AcceptedPn, pn.get())
}

/// Writes the promise of another monitor's proposal number.
pub fn put_promise(tx: &mut Transaction, pn: Pn) -> Result<(), OutOfMemory>
    ensures changes { OnOk result (tx.new ≡ tx.old ++ ops_of (Promise pn)) }
    ensures fit { Fits (Promise pn) }
{
    tx.put_number(Area::Paxos, Key::AcceptedPn, pn.get())
}

/// Writes that a value is accepted for a version under a proposal number.
pub fn put_vote(
    tx: &mut Transaction,
    version: Version,
    pn: Pn,
    value: &Transaction,
) -> Result<(), OutOfMemory>
    requires { length (text value.now) ≤ most }
    ensures changes { OnOk result (tx.new ≡ tx.old ++ ops_of (Vote version pn value.now)) }
    ensures fit { Fits (Vote version pn value.now) }
{
    let record = value_bytes(value)?;
    tx.put(Area::Paxos, Key::Version(version.get()), record)?;
    tx.put_number(Area::Paxos, Key::PendingV, version.get())?;
    tx.put_number(Area::Paxos, Key::PendingPn, pn.get())
}

/// Writes a version's record, without its changes.
fn put_record(tx: &mut Transaction, v: u64, value: &Transaction) -> Result<(), OutOfMemory>
    requires { length (text value.now) ≤ most }
    ensures { OnOk result (tx.new ≡ tx.old ++ ops_of (Record v value.now)) }
{
    let record = value_bytes(value)?;
    tx.put(Area::Paxos, Key::Version(v), record)
}

/// Writes a version's record, and makes the changes of its value.
fn put_learn(tx: &mut Transaction, v: u64, value: &Transaction) -> Result<(), OutOfMemory>
    requires { length (text value.now) ≤ most }
    ensures { OnOk result (tx.new ≡ tx.old ++ ops_of (Learn v value.now)) }
{
    put_record(tx, v, value)?;
    tx.append(value)
}

/// Writes one entry that a full synchronization copies.
fn put_copy(tx: &mut Transaction, entry: &Entry) -> Result<(), OutOfMemory>
    ensures { OnOk result (tx.new ≡ tx.old ++ ops_of (Copy entry.now)) }
{
    let alloc = tx.allocator();
    tx.push(Op::Put {
        prefix: entry.prefix.copy(alloc)?,
        key: entry.key.copy(alloc)?,
        value: entry.value.copy(alloc)?,
    })
}

/// Writes the records of the versions from `from` on, without their changes.
pub fn put_records(
    tx: &mut Transaction,
    from: u64,
    values: &[Transaction],
) -> Result<(), OutOfMemory>
    requires short { AllByRecursion (λ ops. length (text ops) ≤ most) values.now }
    requires room { from + length values.now ≤ 2 ^ 63 }
    ensures changes { OnOk result (tx.new ≡ tx.old ++ encoded (record_changes from values.now)) }
    ensures fit { AllByRecursion Fits (record_changes from values.now) }
{
    let mut v = from;
    for value in values {
        put_record(tx, v, value)?;
        v += 1;
    }
    Ok(())
}

/// Writes entries that a full synchronization copies.
pub fn put_copies(tx: &mut Transaction, entries: &[Entry]) -> Result<(), OutOfMemory>
    ensures changes { OnOk result (tx.new ≡ tx.old ++ encoded (copy_changes entries.now)) }
    ensures fit { AllByRecursion Fits (copy_changes entries.now) }
{
    for entry in entries {
        put_copy(tx, entry)?;
    }
    Ok(())
}

/// Writes the records of the versions from `from` on, and makes the changes of their values. It doesn't write the last
/// committed version.
pub fn put_learned(
    tx: &mut Transaction,
    from: u64,
    values: &[Transaction],
) -> Result<(), OutOfMemory>
    requires short { AllByRecursion (λ ops. length (text ops) ≤ most) values.now }
    requires room { from + length values.now ≤ 2 ^ 63 }
    ensures changes { OnOk result (tx.new ≡ tx.old ++ encoded (learn_changes from values.now)) }
    ensures fit { AllByRecursion Fits (learn_changes from values.now) }
{
    let mut v = from;
    for value in values {
        put_learn(tx, v, value)?;
        v += 1;
    }
    Ok(())
}

/// Writes the last committed version.
pub fn put_last(tx: &mut Transaction, version: Version) -> Result<(), OutOfMemory>
    ensures changes { OnOk result (tx.new ≡ tx.old ++ ops_of (Last version)) }
    ensures fit { Fits (Last version) }
{
    tx.put_number(Area::Paxos, Key::LastCommitted, version.get())
}

/// Learns the values of the versions from `from` on: writes their records, makes their changes, and writes the last of
/// these versions as the last committed one. Returns `Spent` with `Version` if that would pass 2^62. Without values it
/// writes nothing.
pub fn learn(tx: &mut Transaction, from: u64, values: &[Transaction]) -> Result<(), RoleStop>
    requires short { AllByRecursion (λ ops. length (text ops) ≤ most) values.now }
    requires from { 1 ≤ from }
    requires room { from + length values.now ≤ 2 ^ 63 }
    ensures act { Learns from values.now result }
    ensures changes { OnOk result (tx.new ≡ tx.old ++ encoded (learned from values.now)) }
    ensures fit { OnOk result (AllByRecursion Fits (learned from values.now)) }
{
    if values.is_empty() {
        return Ok(());
    }
    let Some(last) = Version::new(from - 1 + values.len() as u64) else {
        return Err(RoleStop::Spent {
            which: Which::Version,
        });
    };
    put_learned(tx, from, values)?;
    put_last(tx, last)?;
    Ok(())
}

/// Erases all keys of an area.
fn erase_all(tx: &mut Transaction, area: Area) -> Result<(), OutOfMemory>
    ensures { OnOk result (tx.new ≡ tx.old ++ erase_all area ∷ []) }
{
    let prefix = area.prefix(tx.allocator())?;
    tx.push(Op::ErasePrefix { prefix })
}

/// Writes a proposal number back after its area was erased, if there was one.
fn put_back(tx: &mut Transaction, key: Key, pn: Option<Pn>) -> Result<(), OutOfMemory>
    ensures { OnOk result (tx.new ≡ tx.old ++ put_back key pn) }
{
    match pn {
        None => Ok(()),
        Some(pn) => tx.put_number(Area::Paxos, key, pn.get()),
    }
}

/// Begins a full synchronization, which must reach the version `floor`. It erases all shared areas, and writes the two
/// proposal numbers of this monitor back if they were there.
pub fn put_mark(
    tx: &mut Transaction,
    floor: Version,
    last_pn: Option<Pn>,
    promise: Option<Pn>,
) -> Result<(), OutOfMemory>
    ensures changes { OnOk result (tx.new ≡ tx.old ++ ops_of (Mark floor last_pn promise)) }
    ensures fit { Fits (Mark floor last_pn promise) }
{
    tx.put_number(Area::Sync, Key::InSync, 1)?;
    tx.put_number(Area::Sync, Key::Floor, floor.get())?;
    erase_all(tx, Area::Kv)?;
    erase_all(tx, Area::Logm)?;
    erase_all(tx, Area::Paxos)?;
    put_back(tx, Key::LastPn, last_pn)?;
    put_back(tx, Key::AcceptedPn, promise)
}

/// Ends a full synchronization.
pub fn put_unmark(tx: &mut Transaction) -> Result<(), OutOfMemory>
    ensures { OnOk result (tx.new ≡ tx.old ++ ops_of Unmark) }
{
    tx.erase(Area::Sync, Key::InSync)?;
    tx.erase(Area::Sync, Key::Floor)
}
