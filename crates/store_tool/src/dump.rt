//! Dumps: what a map holds, as text.

ghost use Rattle.std.specs.Prelude.{◌≡◌, ◌≤◌, ◌<◌, ◌-◌, ◌++◌, ◌∷◌, ℕ, false, None, length, decimal, string_bytes, IfOk, OnOk};
ghost use Rattle.std.specs.List.{flat_map};
ghost use Rattle.mon_kv.specs.Readers.{entry_of};
ghost use Rattle.std.specs.Str.{bytes_eq};
ghost use Rattle.mon_tx.specs.declared.key.Area.TheVariants.{Paxos};
ghost use Rattle.mon_tx.specs.declared.key.Key.TheVariants.{Version};
ghost use Rattle.mon_tx.specs.Keys.{area_text, decimal_text, place, cell};
ghost use Rattle.mon_tx.specs.Decode.{transaction_of};
ghost use Rattle.store_tool.specs.Dump.{key_line, keys_text, range_line, op_line, transaction_lines, version_lines, versions_text, paxos_text};

use mon_bytes::{Out, OutOfMemory};
use mon_kv::{EntryRef, Kv};
use mon_tx::{Area, Op, TxRefused, decode};
use std::alloc::{AllocError, Global};
use std::fmt::Write;

fn put_key(out: &mut Out, entry: &EntryRef<'_>) -> Result<(), OutOfMemory>
    ensures { OnOk result (out.new ≡ out.old ++ key_line (entry_of entry.now)) }
{
    out.put_bytes(entry.prefix)?;
    out.put_bytes(b" / ")?;
    out.put_bytes(entry.key)?;
    out.put_u8(b'\n')
}

/// A line `PREFIX / KEY` for each key, in the map's order: by prefix, then by key. It reads the map once.
pub fn dump_keys(alloc: Global, kv: &Kv) -> Result<Vec<u8>, OutOfMemory>
    ensures { IfOk result (λ text. text.items ≡ keys_text kv.now) }
{
    let mut out = Out::new(alloc);
    let mut next = kv.next_entry(&[], &[]);
    while let Some(entry) = next {
        put_key(&mut out, &entry)?;
        next = kv.next_entry(entry.prefix, entry.key);
    }
    Ok(out.into_bytes())
}

fn put_range(out: &mut String, prefix: &str, from: u64, to: u64) -> Result<(), AllocError>
    ensures { OnOk result (string_bytes out.new ≡ string_bytes out.old ++ range_line prefix.now from to) }
{
    out.push_str("  erase-range ")?;
    write!(out, "{prefix} {from} {to}\n")
}

fn put_op(out: &mut String, op: &Op) -> Result<(), AllocError>
    ensures { OnOk result (string_bytes out.new ≡ string_bytes out.old ++ op_line op.now) }
{
    match op {
        Op::Put { prefix, key, value } => {
            let prefix = prefix.as_str();
            let key = key.as_str();
            let len = value.as_slice().len();
            write!(out, "  put {prefix} {key} {len}\n")
        }
        Op::Erase { prefix, key } => {
            let prefix = prefix.as_str();
            let key = key.as_str();
            write!(out, "  erase {prefix} {key}\n")
        }
        Op::ErasePrefix { prefix } => {
            let prefix = prefix.as_str();
            write!(out, "  erase-prefix {prefix}\n")
        }
        Op::EraseRange { prefix, from, to } => {
            let prefix = prefix.as_str();
            let from = from.get();
            let to = to.get();
            put_range(out, prefix, from, to)
        }
    }
}

fn put_ops(out: &mut String, ops: &[Op]) -> Result<(), AllocError>
    ensures { OnOk result (string_bytes out.new ≡ string_bytes out.old ++ flat_map op_line ops.now) }
{
    for op in ops {
        put_op(out, op)?;
    }
    Ok(())
}

/// Writes a line with the version and the number of its changes, and one line per change.
fn put_transaction(out: &mut String, v: u64, ops: &[Op]) -> Result<(), AllocError>
    ensures { OnOk result (string_bytes out.new ≡ string_bytes out.old
        ++ decimal v ++ 32 ∷ (decimal (length ops.now) ++ 10 ∷ flat_map op_line ops.now)) }
{
    let count = ops.len();
    write!(out, "{v} {count}\n")?;
    put_ops(out, ops)
}

fn put_record(alloc: Global, out: &mut String, v: u64, bytes: &[u8]) -> Result<(), OutOfMemory>
    ensures { OnOk result (string_bytes out.new
        ≡ string_bytes out.old ++ transaction_lines v (transaction_of bytes.now)) }
{
    match decode(alloc, bytes) {
        Ok(tx) => Ok(put_transaction(out, v, tx.ops())?),
        Err(TxRefused::OutOfMemory) => Err(OutOfMemory),
        Err(_) => Ok(write!(out, "{v} none\n")?),
    }
}

fn put_version(alloc: Global, out: &mut String, kv: &Kv, v: u64) -> Result<(), OutOfMemory>
    ensures { OnOk result (string_bytes out.new ≡ string_bytes out.old ++ version_lines kv.now v) }
{
    match kv.stored(v) {
        Some(bytes) => put_record(alloc, out, v, bytes),
        None => Ok(()),
    }
}

/// Whether a key may be the decimal number of a version from `from` up to but not including `to`.
fn may_be_within(key: &[u8], from: u64, to: u64) -> bool
    ensures { result ≡ false → (k : ℕ) → from ≤ k → k < to → key.now ≡ decimal_text k → ⊥ }
{
    let Ok(text) = str::from_utf8(key) else {
        return true;
    };
    match text.parse::<u64>() {
        Ok(n) => from <= n && n < to,
        Err(_) => false,
    }
}

fn is_paxos(prefix: &[u8]) -> bool
    ensures { result ≡ bytes_eq prefix.now (area_text Paxos) }
{
    prefix == Area::Paxos.as_bytes()
}

/// Whether an entry may be the record of a version from `from` up to but not including `to`.
fn may_be_record(entry: &EntryRef<'_>, from: u64, to: u64) -> bool
    ensures { result ≡ false → (k : ℕ) → from ≤ k → k < to → (entry_of entry.now).0 ≡ place Paxos (Version k) → ⊥ }
{
    if !is_paxos(entry.prefix) {
        return false;
    }
    may_be_within(entry.key, from, to)
}

/// Whether a version from `from` up to but not including `to` may have a record. Time: one look-up per key.
fn may_have_record(kv: &Kv, from: u64, to: u64) -> bool
    ensures { result ≡ false → (k : ℕ) → from ≤ k → k < to → cell kv.now Paxos (Version k) ≡ None }
{
    let mut next = kv.next_entry(&[], &[]);
    while let Some(entry) = next {
        if may_be_record(&entry, from, to) {
            return true;
        }
        next = kv.next_entry(entry.prefix, entry.key);
    }
    false
}

/// Half of the most versions that are looked up one by one. A wider range is halved.
const FEW: u64 = 1024;

/// Writes the versions from `from` up to but not including `end`. A part of a wide range that has no records is
/// skipped: it takes one walk over the map, however many versions it has.
fn put_versions(
    alloc: Global,
    out: &mut String,
    kv: &Kv,
    from: u64,
    end: u64,
) -> Result<(), OutOfMemory>
    ensures { OnOk result (string_bytes out.new ≡ string_bytes out.old ++ versions_text kv.now from (end - from)) }
{
    let half = end.saturating_sub(from) / 2;
    if half <= FEW {
        return put_each(alloc, out, kv, from, end);
    }
    if !may_have_record(kv, from, end) {
        return Ok(());
    }
    let middle = from + half;
    put_versions(alloc, out, kv, from, middle)?;
    put_versions(alloc, out, kv, middle, end)
}

fn put_each(
    alloc: Global,
    out: &mut String,
    kv: &Kv,
    from: u64,
    end: u64,
) -> Result<(), OutOfMemory>
    ensures { OnOk result (string_bytes out.new ≡ string_bytes out.old ++ versions_text kv.now from (end - from)) }
{
    for v in from..end {
        put_version(alloc, out, kv, v)?;
    }
    Ok(())
}

/// The versions from `from` up to and with `to` that have a record, in ascending order, but none after the last
/// committed one. Each has a line `VERSION OPS` and one line per change, or a line `VERSION none` if its record is no
/// transaction. A record costs at most two walks over the map per halving of the range, so even 2^62 versions take few
/// walks.
pub fn dump_paxos(alloc: Global, kv: &Kv, from: u64, to: u64) -> Result<Vec<u8>, OutOfMemory>
    ensures { IfOk result (λ text. text.items ≡ paxos_text kv.now from to) }
{
    let mut out = String::new(alloc);
    let end = to.min(kv.last_committed()) + 1;
    put_versions(alloc, &mut out, kv, from, end)?;
    Ok(out.into_bytes())
}
