//! Whether the key-value map surely has room, found without building it.
//!
//! An incremental lengthens the map by at most its own length. So the lengths of the newest full map and of the
//! incrementals after it bound the map's length.

ghost use Rattle.std.specs.Prelude.{◌≡◌, ◌-◌, ◌≤◌, length, true, IfOk, IfSome};
ghost use Rattle.mon_bytes.specs.Reading.{IsBytes};
ghost use Rattle.mon_msg.specs.Protocol.Services.{full_latest, full_map, read_map};
ghost use Rattle.mon_msg.specs.Protocol.Readings.{readings_of};
ghost use Rattle.svc_core.specs.Room.{IsWithin, IsRoom};

use crate::row::{full, full_latest, incremental, last_version};
use mon_bytes::OutOfMemory;
use mon_kv::Kv;
use mon_msg::{FULL_EVERY, Service};
use std::alloc::Global;

/// The length of the empty map.
const EMPTY: u64 = 4;

/// The number of bytes.
pub(crate) fn length(bytes: &[u8]) -> u64
    ensures value { result ≡ length bytes.now }
    ensures bytes { IsBytes bytes.now }
{
    bytes.len() as u64
}

/// How long the map may be before a version's incremental, so that it has at most `room` bytes afterwards. `None` if
/// the incremental alone is longer.
fn room_before(kv: &Kv, v: u64, room: u64) -> Option<u64>
    ensures { IfSome result (IsRoom (readings_of kv.now) room 1 v) }
{
    match incremental(kv, Service::Kv, v) {
        Some(bytes) => room.checked_sub(length(bytes)),
        None => Some(room),
    }
}

/// How long the map may be before the incrementals from a version up to but not including another, so that it has at
/// most `most` bytes after them.
fn room_before_all(kv: &Kv, from: u64, to: u64, most: u64) -> Option<u64>
    requires { from ≤ to }
    ensures { IfSome result (IsRoom (readings_of kv.now) most (to - from) from) }
{
    let mut room = most;
    for v in (from..to).rev() {
        room = room_before(kv, v, room)?;
    }
    Some(room)
}

/// An upper bound of the lengths of the full map and of the empty map.
fn most_full(alloc: Global, kv: &Kv, latest: u64) -> Result<u64, OutOfMemory>
    requires { latest ≡ full_latest (readings_of kv.now) Service.Kv }
    ensures least { IfOk result (λ n. 4 ≤ n) }
    ensures full { IfOk result (λ n. IfSome (full_map (readings_of kv.now) Service.Kv) (IsWithin n)) }
{
    match full(alloc, kv, Service::Kv, latest)? {
        Some(bytes) => Ok(length(bytes).max(EMPTY)),
        None => Ok(EMPTY),
    }
}

/// Whether the map that is read surely has at most this many bytes. That isn't sure if version 1 is kept, since all
/// incrementals are then read in place of an invalid full map.
pub(crate) fn is_within(alloc: Global, kv: &Kv, most: u64) -> Result<bool, OutOfMemory>
    ensures { IfOk result (λ sure. sure ≡ true → IsWithin most (read_map (readings_of kv.now) Service.Kv)) }
{
    let last = last_version(kv, Service::Kv);
    let latest = full_latest(kv, Service::Kv);
    // A full map is kept at each multiple of this, so more incrementals follow it only in a store that lacks some full
    // maps.
    if latest > last || last - latest > FULL_EVERY {
        return Ok(false);
    }
    if incremental(kv, Service::Kv, 1).is_some() {
        return Ok(false);
    }
    match room_before_all(kv, latest + 1, last + 1, most) {
        Some(room) => Ok(most_full(alloc, kv, latest)? <= room),
        None => Ok(false),
    }
}
