//! Which keys are a monitor's own.

ghost use Rattle.std.specs.Prelude.{◌≡◌, ◌-◌, ◌^◌, ◌<◌, IsTrue};
ghost use Rattle.std.specs.Ordering.{eq_by_cmp};
ghost use Rattle.mon_tx.specs.Map.{place_cmp};
ghost use Rattle.mon_tx.specs.Keys.{area_text, is_fixed, is_local, place};
ghost use Rattle.mon_kv.specs.Chunks.{own_of_paxos};

use itoa::Buffer;
use mon_tx::{Area, Key, is_at};

/// Whether a prefix and a key are this area and this key of it.
fn is_in(prefix: &[u8], key: &[u8], area: Area, own_key: &[u8]) -> bool
    ensures { result ≡ eq_by_cmp place_cmp (area_text area, own_key.now) (prefix.now, key.now) }
{
    is_at(area.as_bytes(), own_key, prefix, key)
}

/// Whether a prefix and a key are this area and this key of it, given that the key's text is fixed.
fn is_named(prefix: &[u8], key: &[u8], area: Area, own: Key) -> bool
    requires { IsTrue (is_fixed own) }
    ensures { result ≡ eq_by_cmp place_cmp (place area own) (prefix.now, key.now) }
{
    is_in(prefix, key, area, own.as_bytes())
}

/// Whether a key of Paxos is the monitor's own, given that `next` is the decimal number of the version after its
/// last.
fn is_own_of_paxos(prefix: &[u8], key: &[u8], next: &[u8]) -> bool
    ensures { result ≡ own_of_paxos next.now (prefix.now, key.now) }
{
    is_named(prefix, key, Area::Paxos, Key::LastCommitted)
        | is_named(prefix, key, Area::Paxos, Key::LastPn)
        | is_named(prefix, key, Area::Paxos, Key::AcceptedPn)
        | is_named(prefix, key, Area::Paxos, Key::PendingV)
        | is_named(prefix, key, Area::Paxos, Key::PendingPn)
        | is_in(prefix, key, Area::Paxos, next)
}

/// Whether a key is the monitor's own, given that `last` is its last version.
pub fn is_local(prefix: &[u8], key: &[u8], last: u64) -> bool
    requires { last < 2 ^ 64 - 1 }
    ensures { result ≡ is_local last (prefix.now, key.now) }
{
    let mut digits = Buffer::new();
    is_own_of_paxos(prefix, key, digits.format(last + 1).as_bytes())
        | is_named(prefix, key, Area::Monitor, Key::ElectionEpoch)
        | is_named(prefix, key, Area::Monitor, Key::BootCount)
        | is_named(prefix, key, Area::Sync, Key::InSync)
        | is_named(prefix, key, Area::Sync, Key::Floor)
}
