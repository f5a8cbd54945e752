//! Incrementals, applied to a map one after the other.

ghost use Rattle.std.specs.Prelude.{◌≡◌, ◌+◌, ◌<◌, ◌^◌, length, Option};
ghost use Rattle.mon_msg.specs.Protocol.Maps.{if_ok, with_incremental};
ghost use Rattle.map_follower.specs.Copies.{applied_from};
ghost use Rattle.map_follower.specs.Stepping.{Steps, Gives};
ghost use Rattle.map_kv.specs.Decode as kv_decode;
ghost use Rattle.map_log.specs.Decode as log_decode;

use map_kv::{KvInc, KvMap};
use map_log::{LogInc, LogMap};
use mon_bytes::{Bytes, Decode, MapRefused, OutOfMemory};
use mon_msg::ShownMap;
use std::alloc::Global;

/// Why incrementals weren't applied.
#[derive(Clone, Copy)]
pub(crate) enum Unapplied {
    /// The bytes at this place aren't an incremental.
    Bad { index: u64 },
    OutOfMemory,
}

impl From<OutOfMemory> for Unapplied {
    ghost use Rattle.std.specs.Prelude.{◌≡◌};
    ghost use Rattle.map_follower.specs.declared.stepping.Unapplied.TheVariants.{OutOfMemory as no_memory};

    ghost from_gives = { λ _ e. e ≡ no_memory };

    fn from(_e: OutOfMemory) -> Unapplied {
        Unapplied::OutOfMemory
    }
}

fn kv_step(alloc: Global, map: &mut KvMap, bytes: &[u8], index: u64) -> Result<(), Unapplied>
    ensures { Steps result index (ShownMap.Kv map.new) (with_incremental (ShownMap.Kv map.old) bytes.now) }
{
    match KvInc::decode(alloc, bytes) {
        Ok(inc) => Ok(map.apply(&inc)?),
        Err(MapRefused::Form { .. }) => Err(Unapplied::Bad { index }),
        Err(MapRefused::OutOfMemory) => Err(Unapplied::OutOfMemory),
    }
}

fn log_step(alloc: Global, map: &mut LogMap, bytes: &[u8], index: u64) -> Result<(), Unapplied>
    ensures { Steps result index (ShownMap.Log map.new) (with_incremental (ShownMap.Log map.old) bytes.now) }
{
    match LogInc::decode(alloc, bytes) {
        Ok(inc) => Ok(map.apply(&inc)?),
        Err(MapRefused::Form { .. }) => Err(Unapplied::Bad { index }),
        Err(MapRefused::OutOfMemory) => Err(Unapplied::OutOfMemory),
    }
}

/// Applies the incremental that the bytes encode; `index` is its place.
fn step(alloc: Global, map: &mut ShownMap, bytes: &[u8], index: u64) -> Result<(), Unapplied>
    ensures { Steps result index map.new (with_incremental map.old bytes.now) }
{
    match map {
        ShownMap::Kv(map) => kv_step(alloc, map, bytes, index),
        ShownMap::Log(map) => log_step(alloc, map, bytes, index),
    }
}

/// The map after these incrementals, the first of which has the place `index`.
pub(crate) fn applied_from(
    alloc: Global,
    map: &ShownMap,
    index: u64,
    updates: &[Bytes],
) -> Result<ShownMap, Unapplied>
    requires { index + length updates.now < 2 ^ 64 }
    ensures { Gives result (applied_from index map.now updates.now) }
{
    let mut next = map.copy()?;
    let mut place = index;
    for bytes in updates {
        step(alloc, &mut next, bytes.as_slice(), place)?;
        place += 1;
    }
    Ok(next)
}
