//! What changed a service's map after a version.

ghost use Rattle.std.specs.Prelude.{◌≡◌, ◌-◌, ◌≤◌, ◌^◌, suc, [], ◌∷◌, ◌++◌, length, nat_lt, IfOk, OnOk};
ghost use Rattle.mon_msg.specs.Protocol.Services.{service_last, kept_from, fits_reply};
ghost use Rattle.mon_msg.specs.Protocol.Reads.{since, shown};
ghost use Rattle.mon_msg.specs.Protocol.Records.{longest};
ghost use Rattle.mon_msg.specs.Protocol.Readings.{readings_of};

use crate::reading::read;
use crate::row::{first_version, incremental, last_version};
use mon_bytes::{Bytes, OutOfMemory};
use mon_kv::Kv;
use mon_msg::{Items, MOST_ITEMS, MOST_SINCE_BYTES, Reply, Service};
use mon_types::Version;
use std::alloc::Global;

/// Incrementals in order of version, and whether more follow.
#[derive(Drop)]
struct Changes {
    updates: Items<Bytes>,
    more: bool,
}

/// Appends a copy of the bytes.
fn push_copy(alloc: Global, updates: &mut Items<Bytes>, bytes: &[u8]) -> Result<(), OutOfMemory>
    ensures { OnOk result (updates.new ≡ updates.old ++ bytes.now ∷ []) }
{
    updates.push(Bytes::new(Vec::from_slice(alloc, bytes)?))
}

/// The incrementals after version `v` up to the first that isn't there, as many as one reply takes.
fn changes_after(alloc: Global, kv: &Kv, service: Service, v: u64) -> Result<Changes, OutOfMemory>
    requires { v ≤ 2 ^ 62 }
    ensures updates { IfOk result
        (λ c. c.updates ≡ longest fits_reply
        (kept_from (readings_of kv.now) service (service_last (readings_of kv.now) service - v) (suc v))) }
    ensures more { IfOk result
        (λ c. c.more ≡ nat_lt (length c.updates)
        (length (kept_from (readings_of kv.now) service (service_last (readings_of kv.now) service - v) (suc v)))) }
{
    let last = last_version(kv, service);
    let mut updates = Items::new(alloc);
    let mut room = MOST_SINCE_BYTES;
    for n in v..last {
        let Some(bytes) = incremental(kv, service, n + 1) else {
            return Ok(Changes {
                updates,
                more: false,
            });
        };
        if updates.as_slice().len() == MOST_ITEMS || bytes.len() + 4 > room {
            return Ok(Changes {
                updates,
                more: true,
            });
        }
        room -= bytes.len() + 4;
        push_copy(alloc, &mut updates, bytes)?;
    }
    Ok(Changes {
        updates,
        more: false,
    })
}

/// Answers with a service's whole map, the last committed version and the service's last version.
#[tactic(auto, unfolding(mon_msg::specs::Protocol::Readings::readings_of))]
pub fn shown(alloc: Global, kv: &Kv, service: Service) -> Result<Reply, OutOfMemory>
    ensures { IfOk result (λ reply. reply ≡ shown (readings_of kv.now) service) }
{
    Ok(Reply::Shown {
        service,
        paxos: Version::known(kv.last_committed()),
        version: Version::known(last_version(kv, service)),
        map: read(alloc, kv, service)?,
    })
}

/// Answers what changed a service's map after version `v`. The answer has the incrementals from version `v + 1` on, as
/// many as one reply takes. It is the whole map if the first version that is kept is above `v + 1`.
#[tactic(auto, unfolding(mon_msg::specs::Protocol::Reads::since))]
pub fn since(alloc: Global, kv: &Kv, service: Service, v: u64) -> Result<Reply, OutOfMemory>
    requires { v ≤ 2 ^ 62 }
    ensures { IfOk result (λ reply. reply ≡ since (readings_of kv.now) service v) }
{
    if first_version(kv, service) > v + 1 {
        return shown(alloc, kv, service);
    }
    let Changes { updates, more } = changes_after(alloc, kv, service, v)?;
    Ok(Reply::Since {
        service,
        from: Version::known(v),
        incrementals: updates,
        more,
    })
}
