//! Whether the key-value map that is read holds a key, found without building the map.
//!
//! The newest full map is read entry by entry. Each incremental after it sets or removes one key.

ghost use Rattle.std.specs.Prelude.{◌≡◌, ◌+◌, ◌≤◌, ◌^◌, IfOk, IfSome};
ghost use Rattle.map_kv.specs.Map as kv_map;
ghost use Rattle.map_kv.specs.declared.command.TheConstants.{MOST_KV_MAP};
ghost use Rattle.mon_msg.specs.Protocol.Maps.{decoded_map};
ghost use Rattle.mon_msg.specs.Protocol.Services.{service_last, full_latest, full_map, read_map, read_on};
ghost use Rattle.mon_msg.specs.Protocol.Readings.{readings_of};
ghost use Rattle.mon_wire.specs.declared.reply.ShownMap.{ShownMap};
ghost use Rattle.svc_core.specs.Onward.{step_at};
ghost use Rattle.svc_core.specs.Outline.{IsOf, Outlines, OutlinesSome, Holds};

use crate::room::length;
use crate::row::{full, full_latest, incremental, last_version};
use crate::scan::map_holds;
use crate::step::decoded;
use map_kv::{KvInc, MOST_KV_MAP};
use mon_bytes::OutOfMemory;
use mon_kv::Kv;
use mon_msg::Service;
use std::alloc::Global;

/// What is known of a map that isn't built.
#[derive(Clone, Copy)]
pub(crate) struct Outline {
    /// Whether it holds the key.
    pub(crate) held: bool,
    /// An upper bound of the length of its encoding.
    pub(crate) most: u64,
}

impl Outline {
    /// The outline after an incremental, if the map is surely not too long then.
    fn after(self, inc: &KvInc, key: &[u8]) -> Option<Outline>
        requires { self.most ≤ MOST_KV_MAP }
        ensures outline { IfSome result
            (λ o. (m : kv_map.Kv) → IsOf key.now self m → IsOf key.now o (kv_map.with_inc m inc.now)) }
        ensures most { IfSome result (λ o. o.most ≤ MOST_KV_MAP) }
    {
        match inc {
            KvInc::Set { key: set, value } => {
                // An entry has its key's length in one byte and its value's in four.
                let longer = set.as_slice().len() as u64 + value.as_slice().len() as u64 + 5;
                let most = self.most + longer;
                if most > MOST_KV_MAP {
                    return None;
                }
                Some(Outline {
                    held: self.held || key == set.as_slice(),
                    most,
                })
            }
            KvInc::Remove { key: removed } => Some(Outline {
                held: self.held && key != removed.as_slice(),
                most: self.most,
            }),
        }
    }
}

/// The outline of the map that the bytes encode, if they encode one that isn't too long.
fn outline_of(bytes: &[u8], key: &[u8]) -> Option<Outline>
    ensures outline { IfSome result (λ o. OutlinesSome key.now o (decoded_map Service.Kv bytes.now)) }
    ensures most { IfSome result (λ o. o.most ≤ MOST_KV_MAP) }
{
    let most = length(bytes);
    if most > MOST_KV_MAP {
        return None;
    }
    match map_holds(bytes, key) {
        Some(held) => Some(Outline { held, most }),
        None => None,
    }
}

/// The outline of the newest full map, if there is one that is no newer than the last version.
fn full_outline(
    alloc: Global,
    kv: &Kv,
    latest: u64,
    key: &[u8],
) -> Result<Option<Outline>, OutOfMemory>
    requires latest { latest ≡ full_latest (readings_of kv.now) Service.Kv }
    requires not_newer { latest ≤ service_last (readings_of kv.now) Service.Kv }
    ensures outline { IfOk result
        (λ o. IfSome o (λ o. OutlinesSome key.now o (full_map (readings_of kv.now) Service.Kv))) }
    ensures most { IfOk result (λ o. IfSome o (λ o. o.most ≤ MOST_KV_MAP)) }
{
    match full(alloc, kv, Service::Kv, latest)? {
        Some(bytes) => Ok(outline_of(bytes, key)),
        None => Ok(None),
    }
}

/// The outline after the incremental that made version `v`, if there is one that surely gives a map.
fn outline_after(
    alloc: Global,
    kv: &Kv,
    v: u64,
    key: &[u8],
    outline: Outline,
) -> Result<Option<Outline>, OutOfMemory>
    requires { outline.most ≤ MOST_KV_MAP }
    ensures outline { IfOk result (λ next. IfSome next (λ next. (m : ShownMap) → Outlines key.now outline m →
        OutlinesSome key.now next (step_at (readings_of kv.now) Service.Kv v m))) }
    ensures most { IfOk result (λ next. IfSome next (λ next. next.most ≤ MOST_KV_MAP)) }
{
    let Some(bytes) = incremental(kv, Service::Kv, v) else {
        return Ok(None);
    };
    let Some(inc) = decoded::<KvInc>(alloc, bytes)? else {
        return Ok(None);
    };
    let next = outline.after(&inc, key);
    drop(inc);
    Ok(next)
}

/// The outline after this many incrementals, from version `v` on, if each surely gives a map.
fn outline_on(
    alloc: Global,
    kv: &Kv,
    count: u64,
    v: u64,
    key: &[u8],
    full: Outline,
) -> Result<Option<Outline>, OutOfMemory>
    requires most { full.most ≤ MOST_KV_MAP }
    requires versions { v + count ≤ 2 ^ 63 }
    ensures { IfOk result (λ next. IfSome next (λ next. (m : ShownMap) → Outlines key.now full m →
        Outlines key.now next (read_on (readings_of kv.now) Service.Kv count v m))) }
{
    let mut outline = full;
    for i in 0..count {
        let Some(next) = outline_after(alloc, kv, v + i, key, outline)? else {
            return Ok(None);
        };
        outline = next;
    }
    Ok(Some(outline))
}

/// Whether the key-value map that is read holds the key, or `None` if that can't be known without building the map:
/// there is no full map, or an incremental after it is missing, is invalid or may make the map too long.
pub(crate) fn holds(alloc: Global, kv: &Kv, key: &[u8]) -> Result<Option<bool>, OutOfMemory>
    ensures { IfOk result
        (λ held. IfSome held (λ held. Holds key.now held (read_map (readings_of kv.now) Service.Kv))) }
{
    let last = last_version(kv, Service::Kv);
    let latest = full_latest(kv, Service::Kv);
    if latest > last {
        return Ok(None);
    }
    let Some(full) = full_outline(alloc, kv, latest, key)? else {
        return Ok(None);
    };
    match outline_on(alloc, kv, last - latest, latest + 1, key, full)? {
        Some(outline) => Ok(Some(outline.held)),
        None => Ok(None),
    }
}
