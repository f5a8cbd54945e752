//! The number of a life: of one process of a monitor, whatever became of its store.

ghost use Rattle.std.specs.Prelude.{◌≡◌, ◌<◌, ◌^◌, IfOk};
ghost use Rattle.mon_name.specs.Numbers.{life_of};

use mon_types::{GREATEST, Number};
use std::io;
use std::random::RandomSource;
use std::time::Clock;

/// Marks the number of a life.
#[derive(Clone, Copy, PartialEq, Eq, PartialOrd, Ord)]
pub struct OfLife;

/// The number of a life.
pub type Life = Number<OfLife>;

/// The number that bytes give: their lowest 62 bits.
pub fn life_of(drawn: [u8; 8]) -> Life
    ensures value { result ≡ life_of drawn }
    ensures most { result < 2 ^ 62 }
{
    Life::known(u64::from_le_bytes(drawn) % GREATEST)
}

/// The nanoseconds since 1970: their lowest 64 bits.
fn nanos<R: Clock>(rt: &R) -> io::Result<[u8; 8]> {
    let passed = rt.since_1970()?.as_nanos();
    Ok(((passed % (1 << 64)) as u64).to_le_bytes())
}

/// The number of a new life: 62 random bits, or the time in nanoseconds if the system has no randomness. An error if it
/// has no time either.
pub fn new_life<R: RandomSource + Clock>(rt: &R) -> io::Result<Life>
    ensures { IfOk result (λ life. life < 2 ^ 62) }
{
    let mut drawn = [0; 8];
    match rt.fill_bytes(&mut drawn) {
        Ok(()) => Ok(life_of(drawn)),
        Err(_) => Ok(life_of(nanos(rt)?)),
    }
}
