//! What a store holds of a service.

ghost use Rattle.std.specs.Prelude.{◌≡◌, ◌≤◌, ◌^◌, IfOk, IsTrue};
ghost use Rattle.std.specs.Option.{option_copied};
ghost use Rattle.mon_tx.specs.Keys.{is_fixed, number};
ghost use Rattle.mon_tx.specs.declared.key.Key.TheVariants as keys;
ghost use Rattle.mon_msg.specs.Protocol.Services.{service_first, service_last, full_latest};
ghost use Rattle.mon_msg.specs.Protocol.Readings.{readings_of};
ghost use Rattle.mon_msg.specs.Puts.{area_of};

use itoa::Buffer;
use mon_bytes::OutOfMemory;
use mon_kv::Kv;
use mon_msg::Service;
use mon_tx::{Area, Key};
use std::alloc::Global;

/// The prefix under which a service keeps its map.
pub(crate) fn area_of(service: Service) -> Area
    ensures { result ≡ area_of service }
{
    match service {
        Service::Kv => Area::Kv,
        Service::Log => Area::Logm,
    }
}

/// The number under a key of the service with a fixed text.
fn number(kv: &Kv, service: Service, key: Key) -> u64
    requires { IsTrue (is_fixed key) }
    ensures value { result ≡ number kv.now (area_of service) key }
    ensures most { result ≤ 2 ^ 62 }
{
    kv.named_number(area_of(service), key)
}

/// The first version that is kept.
#[tactic(auto, unfolding(mon_msg::specs::Protocol::Readings::readings_of))]
pub(crate) fn first_version(kv: &Kv, service: Service) -> u64
    ensures value { result ≡ service_first (readings_of kv.now) service }
    ensures most { result ≤ 2 ^ 62 }
{
    number(kv, service, Key::FirstCommitted)
}

/// A service's last version, which is 0 if it has none.
#[tactic(auto, unfolding(mon_msg::specs::Protocol::Readings::readings_of))]
pub fn last_version(kv: &Kv, service: Service) -> u64
    ensures value { result ≡ service_last (readings_of kv.now) service }
    ensures most { result ≤ 2 ^ 62 }
{
    number(kv, service, Key::LastCommitted)
}

/// The version of the newest full map.
#[tactic(auto, unfolding(mon_msg::specs::Protocol::Readings::readings_of))]
pub(crate) fn full_latest(kv: &Kv, service: Service) -> u64
    ensures value { result ≡ full_latest (readings_of kv.now) service }
    ensures most { result ≤ 2 ^ 62 }
{
    number(kv, service, Key::FullLatest)
}

/// The bytes of the incremental that made a version, or `None` if and only if there are none.
#[tactic(auto, using(mon_tx::proofs::Decimals::decimal_is), unfolding(mon_msg::specs::Protocol::Readings::readings_of))]
pub(crate) fn incremental(kv: &Kv, service: Service, v: u64) -> Option<&[u8]>
    ensures { option_copied result ≡ (readings_of kv.now).row service (keys.Version v) }
{
    let mut digits = Buffer::new();
    kv.get(area_of(service).as_bytes(), digits.format(v).as_bytes())
}

/// The bytes of the full map at a version, or `None` if and only if there are none.
#[tactic(auto, unfolding(mon_msg::specs::Protocol::Readings::readings_of))]
pub(crate) fn full(
    alloc: Global,
    kv: &Kv,
    service: Service,
    v: u64,
) -> Result<Option<&[u8]>, OutOfMemory>
    ensures { IfOk result (λ bytes. option_copied bytes ≡ (readings_of kv.now).row service (keys.Full v)) }
{
    let key = Key::Full(v).name(alloc)?;
    Ok(kv.get(area_of(service).as_bytes(), key.as_slice()))
}
