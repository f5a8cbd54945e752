//! The number of a monitor's life, and the clock of the machine.

use mon_link::Clock;
use mon_name::{BootClock, new_life};
use mon_types::{GREATEST, Moment};
use std::io::ErrorKind;
use std::random::RandomSource;
use std::test::Fail;
use std::time::Duration;
use std::{io, time};

/// A system with this random byte, if it has any, and this time in nanoseconds, if it has any.
#[derive(Clone, Copy)]
struct System {
    random: Option<u8>,
    nanos: Option<u64>,
}

impl RandomSource for System {
    fn fill_bytes(&self, buf: &mut [u8]) -> io::Result<()> {
        let Some(byte) = self.random else {
            return Err(ErrorKind::Unsupported.into());
        };
        buf.fill(byte);
        Ok(())
    }
}

impl time::Clock for System {
    fn monotonic(&self) -> io::Result<Duration> {
        Err(ErrorKind::Unsupported.into())
    }

    fn since_1970(&self) -> io::Result<Duration> {
        match self.nanos {
            Some(nanos) => Ok(Duration::from_nanos(nanos)),
            None => Err(ErrorKind::Unsupported.into()),
        }
    }
}

/// A system's random byte and time, and the number of a life there.
const LIVES: &[(Option<u8>, Option<u64>, Option<u64>)] = &[
    (Some(0), Some(5), Some(0)),
    (Some(1), None, Some(0x0101_0101_0101_0101)),
    (Some(0xff), Some(5), Some(GREATEST - 1)),
    (None, Some(5), Some(5)),
    (
        None,
        Some(1_800_000_000_123_456_789),
        Some(1_800_000_000_123_456_789),
    ),
    (None, Some(u64::MAX), Some(GREATEST - 1)),
    (None, None, None),
];

#[test]
fn a_life_has_a_number(rt: HostRuntime) -> Result<(), Fail> {
    for (random, nanos, wanted) in LIVES {
        let (random, nanos) = (*random, *nanos);
        let life = new_life(&System { random, nanos });
        assert!(rt; life.ok().map(|life| life.get()) == *wanted);
    }
    assert!(rt; new_life(&rt)? != new_life(&rt)?);
    Ok(())
}

#[test]
fn the_clock_of_the_machine_runs(rt: HostRuntime) {
    let mut clock = BootClock::new();
    let first = clock.now();
    let second = clock.now();
    assert!(rt; Moment::known(0) < first && first <= second);
}
