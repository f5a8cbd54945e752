//! A disk whose calls are counted and timed.

ghost use Rattle.std.specs.Prelude.{◌≡◌};

use crate::times::DiskTimes;
use mon_disk::Disk;
use mon_link::Clock;
use mon_types::Stop;
use std::cell::Cell;
use std::rc::Rc;

/// A disk that passes each call to another one and returns its result. It counts the calls and times the syncs in
/// `times`, which others may share and read.
#[derive(Drop)]
pub struct Timed<D: Disk + Drop, C: Clock + Drop> {
    pub inner: D,
    clock: C,
    times: Rc<Cell<DiskTimes>>,
}

impl<D: Disk + Drop, C: Clock + Drop> Timed<D, C> {
    /// A disk over `inner` that counts in `times`.
    pub fn new(inner: D, clock: C, times: Rc<Cell<DiskTimes>>) -> Timed<D, C>
        ensures { result.inner ≡ inner }
    {
        Timed {
            inner,
            clock,
            times,
        }
    }
}

impl<D: Disk + Drop, C: Clock + Drop> Disk for Timed<D, C> {
    ghost state = { λ t. D.state t.inner };

    fn len(&mut self) -> Result<u64, Stop> {
        let length = self.inner.len();
        if let Ok(length) = length {
            self.times.set(self.times.get().after_length(length));
        }
        length
    }

    fn read(&mut self, at: u64, into: &mut [u8]) -> Result<(), Stop> {
        let bytes = into.len() as u64;
        self.times.set(self.times.get().after_read(bytes));
        self.inner.read(at, into)
    }

    fn write_at(&mut self, at: u64, bytes: &[u8]) -> Result<(), Stop> {
        let length = bytes.len() as u64;
        let written = self.inner.write_at(at, bytes);
        let times = self.times.get();
        self.times
            .set(times.after_write(at, length, written.is_ok()));
        written
    }

    fn sync(&mut self) -> Result<(), Stop> {
        let began = self.clock.now().get();
        let synced = self.inner.sync();
        let time = self.clock.now().get().saturating_sub(began);
        self.times.set(self.times.get().after_sync(time));
        synced
    }

    ghost as_read = { λ t. D.as_read t.inner };

    ghost settled = { λ t. D.settled t.inner };
}
