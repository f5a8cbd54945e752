//! Following the changes of a transaction with a known map.

ghost use Rattle.std.specs.Prelude.{◌≡◌, ◌+◌, ◌<◌, ◌≤◌, ◌^◌, true, Some, IfOk, IsTrue};
ghost use Rattle.std.specs.Str.{bytes_eq};
ghost use Rattle.mon_tx.specs.Keys.{is_fixed, key_text};
ghost use Rattle.mon_tx.specs.declared.key.Key.TheVariants as keys;
ghost use Rattle.svc_core.specs.Cache.{FollowedTo, after_put, after_op, after_ops};

use crate::row::area_of;
use crate::step::step;
use itoa::Buffer;
use mon_bytes::OutOfMemory;
use mon_kv::number_of;
use mon_msg::{Service, ShownMap};
use mon_tx::{Key, Op};
use std::alloc::Global;

/// A known map during a transaction.
#[derive(Drop)]
pub(crate) struct Progress {
    /// The map's version after the changes so far.
    pub(crate) version: u64,
    pub(crate) map: ShownMap,
    /// Whether `last_committed` was put after this version's incremental. True at first.
    pub(crate) version_written: bool,
}

/// Whether a key is that of a version.
#[tactic(auto, using(mon_tx::proofs::Decimals::decimal_is))]
fn is_version(key: &[u8], v: u64) -> bool
    ensures { result ≡ bytes_eq key.now (key_text (keys.Version v)) }
{
    let mut digits = Buffer::new();
    key == digits.format(v).as_bytes()
}

/// Whether a key is this named one, which has a fixed text.
fn is_named(key: &[u8], named: Key) -> bool
    requires { IsTrue (is_fixed named) }
    ensures { result ≡ bytes_eq key.now (key_text named) }
{
    key == named.as_bytes()
}

/// Follows a put of a service's key. Returns whether it can be followed: it puts the next version's incremental, the
/// first version, or this version as the last one.
fn put(
    alloc: Global,
    service: Service,
    key: &[u8],
    value: &[u8],
    progress: &mut Progress,
) -> Result<bool, OutOfMemory>
    requires version { progress.old.version + 1 < 2 ^ 64 }
    requires fits { progress.old.version_written ≡ true → progress.old.version ≤ 2 ^ 62 }
    ensures progress { IfOk result (FollowedTo progress.new (after_put service key.now value.now progress.old)) }
    ensures version { progress.new.version ≤ progress.old.version + 1 }
    ensures fits { progress.new.version_written ≡ true → progress.new.version ≤ 2 ^ 62 }
{
    if is_version(key, progress.version + 1) {
        progress.version += 1;
        progress.version_written = false;
        return step(alloc, service, &mut progress.map, value);
    }
    if is_named(key, Key::FirstCommitted) {
        return Ok(true);
    }
    if !is_named(key, Key::LastCommitted) || number_of(Some(value)) != progress.version {
        return Ok(false);
    }
    progress.version_written = true;
    Ok(true)
}

/// Follows a change, and returns whether it can be followed. An erasure of the service's keys can't be.
fn change(
    alloc: Global,
    service: Service,
    op: &Op,
    progress: &mut Progress,
) -> Result<bool, OutOfMemory>
    requires version { progress.old.version + 1 < 2 ^ 64 }
    requires fits { progress.old.version_written ≡ true → progress.old.version ≤ 2 ^ 62 }
    ensures progress { IfOk result (FollowedTo progress.new (after_op service op.now progress.old)) }
    ensures version { progress.new.version ≤ progress.old.version + 1 }
    ensures fits { progress.new.version_written ≡ true → progress.new.version ≤ 2 ^ 62 }
{
    let own = area_of(service).as_bytes();
    match op {
        Op::Put { prefix, key, value } => {
            if prefix.as_slice() != own {
                return Ok(true);
            }
            put(alloc, service, key.as_slice(), value.as_slice(), progress)
        }
        Op::Erase { prefix, .. } => Ok(prefix.as_slice() != own),
        Op::ErasePrefix { prefix } => Ok(prefix.as_slice() != own),
        Op::EraseRange { prefix, .. } => Ok(prefix.as_slice() != own),
    }
}

/// Follows changes in their order, and returns whether each can be followed.
pub(crate) fn changes(
    alloc: Global,
    service: Service,
    ops: &[Op],
    progress: &mut Progress,
) -> Result<bool, OutOfMemory>
    requires version { progress.old.version ≤ 2 ^ 62 }
    ensures progress { IfOk result (FollowedTo progress.new (after_ops service ops.now progress.old)) }
    ensures fits { progress.new.version_written ≡ true → progress.new.version ≤ 2 ^ 62 }
{
    for op in ops {
        if !change(alloc, service, op, progress)? {
            return Ok(false);
        }
    }
    Ok(true)
}
