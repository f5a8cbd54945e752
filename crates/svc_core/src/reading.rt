//! The map that is read of a service: its newest full map and the incrementals after it.

ghost use Rattle.std.specs.Prelude.{◌≡◌, ◌+◌, ◌-◌, ◌≤◌, ◌^◌, suc, length, IfOk, IfSome};
ghost use Rattle.std.specs.Option.{option_map};
ghost use Rattle.map_kv.specs.Decode as kv_decode;
ghost use Rattle.map_kv.specs.Text as kv_text;
ghost use Rattle.map_kv.specs.declared.command.TheConstants.{MOST_KV_MAP};
ghost use Rattle.map_log.specs.Decode as log_decode;
ghost use Rattle.mon_msg.specs.Protocol.Maps.{empty_map, if_ok, decoded_map};
ghost use Rattle.mon_msg.specs.Protocol.Services.{service_last, full_latest, full_map, read_on, read_map};
ghost use Rattle.mon_msg.specs.Protocol.Parts.{map_text};
ghost use Rattle.mon_msg.specs.Protocol.Readings.{readings_of};
ghost use Rattle.svc_core.specs.Kinds.{IsMapOf, Stepped};
ghost use Rattle.svc_core.specs.Onward.{step_at, goes_on, reaches_last};

use crate::row::{full, full_latest, incremental, last_version};
use crate::step::{decoded, most_map, step};
use map_kv::KvMap;
use map_log::LogMap;
use mon_bytes::OutOfMemory;
use mon_kv::Kv;
use mon_msg::{Service, ShownMap};
use std::alloc::Global;

fn empty_map(alloc: Global, service: Service) -> ShownMap
    ensures map { result ≡ empty_map service }
    ensures form { IsMapOf service result }
{
    match service {
        Service::Kv => ShownMap::Kv(KvMap::new(alloc)),
        Service::Log => ShownMap::Log(LogMap::new(alloc)),
    }
}

fn kv_map(alloc: Global, bytes: &[u8]) -> Result<Option<ShownMap>, OutOfMemory>
    ensures map { IfOk result (λ map. map ≡ option_map ShownMap.Kv (if_ok (kv_decode.map_of bytes.now))) }
    ensures text { IfOk result (λ map. IfSome map (λ m. bytes.now ≡ map_text m)) }
{
    match decoded(alloc, bytes)? {
        Some(map) => Ok(Some(ShownMap::Kv(map))),
        None => Ok(None),
    }
}

fn log_map(alloc: Global, bytes: &[u8]) -> Result<Option<ShownMap>, OutOfMemory>
    ensures map { IfOk result (λ map. map ≡ option_map ShownMap.Log (if_ok (log_decode.map_of bytes.now))) }
    ensures text { IfOk result (λ map. IfSome map (λ m. bytes.now ≡ map_text m)) }
{
    match decoded(alloc, bytes)? {
        Some(map) => Ok(Some(ShownMap::Log(map))),
        None => Ok(None),
    }
}

/// The map that the bytes encode, if they are no longer than a map's encoding may be.
fn decoded_map(
    alloc: Global,
    service: Service,
    bytes: &[u8],
) -> Result<Option<ShownMap>, OutOfMemory>
    ensures map { IfOk result (λ map. map ≡ decoded_map service bytes.now) }
    ensures form { IfOk result (λ map. IfSome map (IsMapOf service)) }
{
    if bytes.len() as u64 > most_map(service) {
        return Ok(None);
    }
    match service {
        Service::Kv => kv_map(alloc, bytes),
        Service::Log => log_map(alloc, bytes),
    }
}

/// The newest full map, unless it is newer than the last version, invalid or too long.
fn full_map(alloc: Global, kv: &Kv, service: Service) -> Result<Option<ShownMap>, OutOfMemory>
    ensures map { IfOk result (λ map. map ≡ full_map (readings_of kv.now) service) }
    ensures form { IfOk result (λ map. IfSome map (IsMapOf service)) }
    ensures not_newer { IfOk result
        (λ map. IfSome map (λ _. full_latest (readings_of kv.now) service ≤
        service_last (readings_of kv.now) service)) }
{
    let latest = full_latest(kv, service);
    if latest > last_version(kv, service) {
        return Ok(None);
    }
    match full(alloc, kv, service, latest)? {
        Some(bytes) => decoded_map(alloc, service, bytes),
        None => Ok(None),
    }
}

/// Where a reading begins: a map, and its version.
#[derive(Drop)]
struct Base {
    map: ShownMap,
    version: u64,
}

/// The newest full map, or else the empty map.
fn start(alloc: Global, kv: &Kv, service: Service) -> Result<Base, OutOfMemory>
    ensures form { IfOk result (λ s. IsMapOf service s.map) }
    ensures not_newer { IfOk result (λ s. s.version ≤ service_last (readings_of kv.now) service) }
    ensures read { IfOk result
        (λ s. read_map (readings_of kv.now) service ≡
        read_on (readings_of kv.now) service (service_last (readings_of kv.now) service - s.version)
        (suc s.version) s.map) }
    ensures reaches { IfOk result
        (λ s. reaches_last (readings_of kv.now) service ≡
        goes_on (readings_of kv.now) service (service_last (readings_of kv.now) service - s.version)
        (suc s.version) s.map) }
{
    match full_map(alloc, kv, service)? {
        Some(map) => Ok(Base {
            map,
            version: full_latest(kv, service),
        }),
        None => Ok(Base {
            map: empty_map(alloc, service),
            version: 0,
        }),
    }
}

/// Applies the incremental that made version `v`, and returns whether there was one.
fn step_at(
    alloc: Global,
    kv: &Kv,
    service: Service,
    v: u64,
    map: &mut ShownMap,
) -> Result<bool, OutOfMemory>
    ensures step { IfOk result (Stepped map.old map.new (step_at (readings_of kv.now) service v map.old)) }
    ensures form { IfOk result (λ _. IsMapOf service map.old → IsMapOf service map.new) }
{
    match incremental(kv, service, v) {
        Some(bytes) => step(alloc, service, map, bytes),
        None => Ok(false),
    }
}

/// Applies this many incrementals, from version `v` on. It stops before the first that is missing, is invalid or
/// makes the map too long, and returns whether there was no such incremental.
fn read_on(
    alloc: Global,
    kv: &Kv,
    service: Service,
    count: u64,
    v: u64,
    map: &mut ShownMap,
) -> Result<bool, OutOfMemory>
    requires form { IsMapOf service map.old }
    requires versions { v + count ≤ 2 ^ 63 }
    ensures map { IfOk result (λ _. map.new ≡ read_on (readings_of kv.now) service count v map.old) }
    ensures all { IfOk result (λ all. all ≡ goes_on (readings_of kv.now) service count v map.old) }
    ensures form { IfOk result (λ _. IsMapOf service map.new) }
{
    for i in 0..count {
        if !step_at(alloc, kv, service, v + i, map)? {
            return Ok(false);
        }
    }
    Ok(true)
}

/// What a reading gave: the map, and whether it reached the last version.
#[derive(Drop)]
pub(crate) struct Reading {
    pub(crate) map: ShownMap,
    pub(crate) reached: bool,
}

/// Reads a service's map.
pub(crate) fn read_whole(alloc: Global, kv: &Kv, service: Service) -> Result<Reading, OutOfMemory>
    ensures map { IfOk result (λ r. r.map ≡ read_map (readings_of kv.now) service) }
    ensures reached { IfOk result (λ r. r.reached ≡ reaches_last (readings_of kv.now) service) }
    ensures form { IfOk result (λ r. IsMapOf service r.map) }
{
    let last = last_version(kv, service);
    let Base { mut map, version } = start(alloc, kv, service)?;
    let reached = read_on(alloc, kv, service, last - version, version + 1, &mut map)?;
    Ok(Reading { map, reached })
}

/// Reads the map that a store keeps of a service: the full map at `full_latest` and the incrementals after it, in
/// order, up to the last version. A full map that is missing, invalid, too long or newer than the last version is
/// replaced by the empty map, with the incrementals from 1 on. Reading ends before the first incremental that is
/// missing, is invalid or makes the map too long.
pub fn read(alloc: Global, kv: &Kv, service: Service) -> Result<ShownMap, OutOfMemory>
    ensures map { IfOk result (λ map. map ≡ read_map (readings_of kv.now) service) }
    ensures form { IfOk result (IsMapOf service) }
{
    Ok(read_whole(alloc, kv, service)?.map)
}

/// Reads the key-value map.
pub(crate) fn read_kv(alloc: Global, kv: &Kv) -> Result<KvMap, OutOfMemory>
    ensures map { IfOk result (λ map. read_map (readings_of kv.now) Service.Kv ≡ ShownMap.Kv map) }
    ensures short { IfOk result (λ map. length (kv_text.map_text map) ≤ MOST_KV_MAP) }
{
    match read(alloc, kv, Service::Kv)? {
        ShownMap::Kv(map) => Ok(map),
        ShownMap::Log(_) => unreachable!(),
    }
}

/// Reads the cluster log.
pub(crate) fn read_log(alloc: Global, kv: &Kv) -> Result<LogMap, OutOfMemory>
    ensures { IfOk result (λ map. read_map (readings_of kv.now) Service.Log ≡ ShownMap.Log map) }
{
    match read(alloc, kv, Service::Log)? {
        ShownMap::Log(map) => Ok(map),
        ShownMap::Kv(_) => unreachable!(),
    }
}
