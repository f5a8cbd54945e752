//! The step that an incremental takes on a map.

ghost use Rattle.std.specs.Prelude.{◌≡◌, IfOk, IfSome};
ghost use Rattle.mon_msg.specs.Protocol.Maps.{if_ok, most_map, next_map, short_map};
ghost use Rattle.map_kv.specs.Map as kv_map;
ghost use Rattle.svc_core.specs.Kinds.{IsMapOf, Stepped};

use map_kv::{KvInc, KvMap};
use map_log::{LogInc, LogMap};
use mon_bytes::{Decode, MapRefused, OutOfMemory};
use mon_msg::{Service, ShownMap};
use std::alloc::Global;

/// The most bytes that a service's map may take.
pub(crate) fn most_map(service: Service) -> u64
    ensures { result ≡ most_map service }
{
    match service {
        Service::Kv => map_kv::MOST_KV_MAP,
        Service::Log => map_log::MOST_LOG_MAP,
    }
}

/// The map or the incremental that the bytes are, if they are one.
pub(crate) fn decoded<T: Decode>(alloc: Global, bytes: &[u8]) -> Result<Option<T>, OutOfMemory>
    ensures value { IfOk result (λ value. value ≡ if_ok (T.decoded bytes.now)) }
    ensures text { IfOk result (λ value. IfSome value (λ x. bytes.now ≡ T.format.text x)) }
{
    match T::decode(alloc, bytes) {
        Ok(value) => Ok(Some(value)),
        Err(MapRefused::Form { .. }) => Ok(None),
        Err(MapRefused::OutOfMemory) => Err(OutOfMemory),
    }
}

/// Applies an incremental, unless the map would have more bytes than it may have. It returns whether it did.
fn kv_apply(service: Service, map: &mut KvMap, inc: &KvInc) -> Result<bool, OutOfMemory>
    ensures { IfOk result (Stepped (ShownMap.Kv map.old) (ShownMap.Kv map.new)
        (short_map service (ShownMap.Kv (kv_map.with_inc map.old inc.now)))) }
{
    if map.size_after(inc) > most_map(service) {
        return Ok(false);
    }
    map.apply(inc)?;
    Ok(true)
}

/// Applies the incremental that the bytes encode. If they encode none, or the map would be too long, there is no
/// result, and the map stays.
fn kv_step(
    alloc: Global,
    service: Service,
    map: &mut KvMap,
    bytes: &[u8],
) -> Result<bool, OutOfMemory>
    ensures { IfOk result (Stepped (ShownMap.Kv map.old) (ShownMap.Kv map.new)
        (next_map service (ShownMap.Kv map.old) bytes.now)) }
{
    let Some(inc) = decoded::<KvInc>(alloc, bytes)? else {
        return Ok(false);
    };
    let stepped = kv_apply(service, map, &inc);
    drop(inc);
    stepped
}

/// Appends the entry that the bytes encode, if they encode one. The cluster log is never too long.
fn log_step(
    alloc: Global,
    service: Service,
    map: &mut LogMap,
    bytes: &[u8],
) -> Result<bool, OutOfMemory>
    ensures { IfOk result (Stepped (ShownMap.Log map.old) (ShownMap.Log map.new)
        (next_map service (ShownMap.Log map.old) bytes.now)) }
{
    let Some(inc) = decoded::<LogInc>(alloc, bytes)? else {
        return Ok(false);
    };
    map.apply(&inc)?;
    Ok(true)
}

/// Applies the incremental that the bytes encode. If they encode none, or the map would be too long, there is no
/// result, and the map stays.
pub(crate) fn step(
    alloc: Global,
    service: Service,
    map: &mut ShownMap,
    bytes: &[u8],
) -> Result<bool, OutOfMemory>
    ensures step { IfOk result (Stepped map.old map.new (next_map service map.old bytes.now)) }
    ensures form { IfOk result (λ _. IsMapOf service map.old → IsMapOf service map.new) }
{
    match map {
        ShownMap::Kv(map) => kv_step(alloc, service, map, bytes),
        ShownMap::Log(map) => log_step(alloc, service, map, bytes),
    }
}
