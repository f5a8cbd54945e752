//! Changes of a tree of prefixes whose values are trees of keys.

ghost use Rattle.std.specs.Prelude.{◌≡◌, ◌+◌, ◌-◌, ◌<◌, ◌^◌, [], not, min, IsTrue, IsSome, IfSome, IfNone, IfOk, OnOk, OnErr};
ghost use Rattle.std.specs.Ordering.{eq_by_cmp};
ghost use Rattle.std.specs.FinMap.Entries.{find, put, where_key};
ghost use Rattle.mon_bytes.specs.Texts.{is_name, is_prefix};
ghost use Rattle.mon_tx.specs.Map.{is_within};
ghost use Rattle.mon_tx.specs.Keys.{decimal_text};
ghost use Rattle.mon_kv.specs.Tree.{bytes_cmp, entries, IsInOrder};
ghost use Rattle.mon_kv.specs.Areas.{under, with_area, record_size, freed_size, weight_of, areas_size, IsWhole, IsTaken, Changes};

use crate::tree::Tree;
use itoa::Buffer;
use mon_bytes::{Bytes, OutOfMemory};
use std::alloc::Global;
use std::mem::replace;

/// The trees of all prefixes, none of them empty.
pub(crate) type Areas = Tree<Tree<Bytes>>;

/// The size of an entry: the lengths of prefix, key and value, and 16.
pub(crate) fn record_size(prefix: &[u8], key: &[u8], value: &[u8]) -> u64
    requires prefix { IsTrue (is_prefix prefix.now) }
    requires key { IsTrue (is_name key.now) }
    ensures { result ≡ record_size prefix.now key.now value.now }
{
    prefix.len() as u64 + key.len() as u64 + value.len() as u64 + 16
}

/// The size of the entry that was at a key, or 0 if there was none.
fn freed_size(prefix: &[u8], key: &[u8], value: &Option<Bytes>) -> u64
    requires prefix { IsTrue (is_prefix prefix.now) }
    requires key { IsTrue (is_name key.now) }
    ensures { result ≡ freed_size prefix.now key.now value.now }
{
    match value {
        Some(value) => record_size(prefix, key, value.as_slice()),
        None => 0,
    }
}

/// The size of all entries under a prefix of this length. It saturates at 2^64 - 1.
fn weight(records: &Tree<Bytes>, prefix_len: u64) -> u64
    ensures { result ≡ min (weight_of prefix_len (entries records.now)) (2 ^ 64 - 1) }
{
    match records {
        Tree::Leaf => 0,
        Tree::Fork(node) => weight(&node.left, prefix_len)
            .saturating_add(prefix_len)
            .saturating_add(node.key.as_slice().len() as u64)
            .saturating_add(node.value.as_slice().len() as u64)
            .saturating_add(16)
            .saturating_add(weight(&node.right, prefix_len)),
    }
}

/// Takes the tree of a prefix out, if there is one, and leaves an empty one in its place.
fn take(areas: &mut Areas, prefix: &[u8]) -> Option<Tree<Bytes>>
    requires whole { IsWhole areas.old }
    requires prefix { IsTrue (is_prefix prefix.now) }
    ensures some { IfSome result (IsTaken areas.old areas.new prefix.now) }
    ensures none { IfNone result (entries areas.new ≡ entries areas.old) }
    ensures nothing { IfNone result (under (find bytes_cmp prefix.now (entries areas.old)) ≡ []) }
{
    let mut records = Tree::Leaf;
    if areas.exchange(prefix, &mut records) {
        Some(records)
    } else {
        None
    }
}

/// Sets the tree of a prefix that has one, or takes the prefix away if that tree is empty.
fn set(areas: &mut Areas, prefix: &[u8], mut records: Tree<Bytes>)
    requires in_order { IsInOrder areas.old }
    requires there { IsSome (find bytes_cmp prefix.now (entries areas.old)) }
    ensures { entries areas.new ≡ with_area prefix.now records (entries areas.old) }
{
    if records.is_empty() {
        areas.remove(prefix);
    } else {
        areas.exchange(prefix, &mut records);
    }
}

/// Puts a first key under a prefix that has none.
#[tactic(auto, using(crate::proofs::AreaLaws::prefix_name))]
fn begin(
    areas: &mut Areas,
    alloc: Global,
    prefix: &[u8],
    key: &[u8],
    value: Bytes,
) -> Result<(), OutOfMemory>
    requires whole { IsWhole areas.old }
    requires prefix { IsTrue (is_prefix prefix.now) }
    requires key { IsTrue (is_name key.now) }
    ensures ok { OnOk result (Changes areas.old areas.new prefix.now (put bytes_cmp key.now value [])) }
    ensures err { OnErr result (entries areas.new ≡ entries areas.old) }
{
    let mut records = Tree::Leaf;
    records.put(alloc, key, value)?;
    areas.put(alloc, prefix, records)?;
    Ok(())
}

/// Sets the value of a key, and returns the size of the entry that it replaces, or 0. After an `Err` every key has its
/// earlier value.
pub(crate) fn put(
    areas: &mut Areas,
    alloc: Global,
    prefix: &[u8],
    key: &[u8],
    value: Bytes,
) -> Result<u64, OutOfMemory>
    requires whole { IsWhole areas.old }
    requires prefix { IsTrue (is_prefix prefix.now) }
    requires key { IsTrue (is_name key.now) }
    ensures freed { IfOk result (λ freed. areas_size (entries areas.new) + freed
        ≡ areas_size (entries areas.old) + record_size prefix.now key.now value) }
    ensures ok { OnOk result (Changes areas.old areas.new prefix.now
        (put bytes_cmp key.now value (under (find bytes_cmp prefix.now (entries areas.old))))) }
    ensures err { OnErr result (Changes areas.old areas.new prefix.now
        (under (find bytes_cmp prefix.now (entries areas.old)))) }
{
    let Some(mut records) = take(areas, prefix) else {
        begin(areas, alloc, prefix, key, value)?;
        return Ok(0);
    };
    let outcome = records.put(alloc, key, value);
    set(areas, prefix, records);
    match outcome {
        Ok(old) => Ok(freed_size(prefix, key, &old)),
        Err(e) => Err(e),
    }
}

/// Removes a key, and returns the size of its entry, or 0 if there was none.
pub(crate) fn erase(areas: &mut Areas, prefix: &[u8], key: &[u8]) -> u64
    requires whole { IsWhole areas.old }
    requires prefix { IsTrue (is_prefix prefix.now) }
    requires key { IsTrue (is_name key.now) }
    ensures freed { areas_size (entries areas.new) + result ≡ areas_size (entries areas.old) }
    ensures after { Changes areas.old areas.new prefix.now
        (where_key bytes_cmp (λ x. not (eq_by_cmp bytes_cmp key.now x))
        (under (find bytes_cmp prefix.now (entries areas.old)))) }
{
    match take(areas, prefix) {
        Some(mut records) => {
            let old = records.remove(key);
            set(areas, prefix, records);
            freed_size(prefix, key, &old)
        }
        None => 0,
    }
}

/// Removes every key of a prefix, and returns the size of their entries.
pub(crate) fn erase_prefix(areas: &mut Areas, prefix: &[u8]) -> u64
    requires whole { IsWhole areas.old }
    requires fits { areas_size (entries areas.old) < 2 ^ 64 }
    ensures freed { areas_size (entries areas.new) + result ≡ areas_size (entries areas.old) }
    ensures after { Changes areas.old areas.new prefix.now [] }
{
    match areas.remove(prefix) {
        Some(records) => weight(&records, prefix.len() as u64),
        None => 0,
    }
}

/// Removes the decimal key of a version, and returns the size of its entry under a prefix of this length, or 0.
#[tactic(auto, using(mon_tx::proofs::Decimals::decimal_is))]
fn erase_version(records: &mut Tree<Bytes>, prefix_len: u64, version: u64) -> u64
    requires in_order { IsInOrder records.old }
    requires fits { weight_of prefix_len (entries records.old) < 2 ^ 64 }
    ensures freed { weight_of prefix_len (entries records.new) + result ≡ weight_of prefix_len (entries records.old) }
    ensures after { entries records.new ≡ where_key bytes_cmp
        (λ x. not (eq_by_cmp bytes_cmp (decimal_text version) x)) (entries records.old) }
{
    let mut digits = Buffer::new();
    let key = digits.format(version);
    match records.remove(key.as_bytes()) {
        Some(value) => {
            let value_len = value.as_slice().len() as u64;
            prefix_len + key.len() as u64 + value_len + 16
        }
        None => 0,
    }
}

/// Removes the decimal keys from `from` up to but not including `to`, one after the other, and returns the size of
/// their entries under a prefix of this length.
fn erase_each(records: &mut Tree<Bytes>, prefix_len: u64, from: u64, to: u64) -> u64
    requires in_order { IsInOrder records.old }
    requires fits { weight_of prefix_len (entries records.old) < 2 ^ 64 }
    ensures freed { weight_of prefix_len (entries records.new) + result ≡ weight_of prefix_len (entries records.old) }
    ensures after { entries records.new ≡ where_key bytes_cmp (λ x. not (is_within from to x)) (entries records.old) }
{
    let mut freed = 0;
    for version in from..to {
        freed += erase_version(records, prefix_len, version);
    }
    freed
}

/// Removes the decimal keys from `from` up to but not including `to` in one pass over all keys, and returns the size of
/// their entries under a prefix of this length.
fn erase_passing(records: &mut Tree<Bytes>, prefix_len: u64, from: u64, to: u64) -> u64
    requires fits { weight_of prefix_len (entries records.old) < 2 ^ 64 }
    ensures freed { weight_of prefix_len (entries records.new) + result ≡ weight_of prefix_len (entries records.old) }
    ensures after { entries records.new ≡ where_key bytes_cmp (λ x. not (is_within from to x)) (entries records.old) }
{
    let before = weight(records, prefix_len);
    let kept = replace(records, Tree::Leaf).without_versions(from, to);
    let after = weight(&kept, prefix_len);
    *records = kept;
    before.saturating_sub(after)
}

/// Removes the decimal keys from `from` up to but not including `to`, and returns the size of their entries under a
/// prefix of this length. It looks each number up, or passes over all keys if they are fewer than the numbers.
fn erase_versions(records: &mut Tree<Bytes>, prefix_len: u64, from: u64, to: u64) -> u64
    requires in_order { IsInOrder records.old }
    requires fits { weight_of prefix_len (entries records.old) < 2 ^ 64 }
    ensures freed { weight_of prefix_len (entries records.new) + result ≡ weight_of prefix_len (entries records.old) }
    ensures after { entries records.new ≡ where_key bytes_cmp (λ x. not (is_within from to x)) (entries records.old) }
{
    let numbers = to.saturating_sub(from);
    if records.count_up_to(numbers) < numbers {
        return erase_passing(records, prefix_len, from, to);
    }
    erase_each(records, prefix_len, from, to)
}

/// Removes every key of a prefix that is the decimal number of a version from `from` up to but not including `to`,
/// and returns the size of their entries. It takes one look-up per number of the range, or one pass over the keys of
/// that prefix if they are fewer.
pub(crate) fn erase_range(areas: &mut Areas, prefix: &[u8], from: u64, to: u64) -> u64
    requires whole { IsWhole areas.old }
    requires prefix { IsTrue (is_prefix prefix.now) }
    requires fits { areas_size (entries areas.old) < 2 ^ 64 }
    ensures freed { areas_size (entries areas.new) + result ≡ areas_size (entries areas.old) }
    ensures after { Changes areas.old areas.new prefix.now
        (where_key bytes_cmp (λ x. not (is_within from to x)) (under (find bytes_cmp prefix.now (entries areas.old)))) }
{
    match take(areas, prefix) {
        Some(mut records) => {
            let freed = erase_versions(&mut records, prefix.len() as u64, from, to);
            set(areas, prefix, records);
            freed
        }
        None => 0,
    }
}
