ghost use Rattle.std.specs.Prelude.{◌≡◌, []};
ghost use Rattle.mon_record.specs.Entries.{entry, of_kind};
ghost use Rattle.mon_record.specs.Recorders.{Appended, Notes, Writes, listed};
ghost use Rattle.mon_record.specs.Tapes.{empty, missed, read};
ghost use Rattle.mon_record.specs.declared.entry.TheConstants.{END};

use crate::entry::{END, Front, READ};
use crate::readings::Readings;
use crate::tape::Tape;
use mon_link::Sink;
use std::cell::Cell;
use std::rc::Rc;

/// A sink of records.
pub trait LifeSink: Sink {
    /// Begins the record of a new life.
    fn begins(&mut self);
}

/// A record on a sink. What can't be written yet waits, and what finds no room is missing, which the record says at that
/// place.
#[derive(Drop)]
pub struct Recorder<K: Sink + Drop> {
    pub sink: K,
    pub tape: Tape,
    readings: Rc<Cell<Readings>>,
}

impl<K: Sink + Drop> Recorder<K> {
    /// A record that begins. A clock leaves its readings in `readings`.
    pub fn new(sink: K, tape: Tape, readings: Rc<Cell<Readings>>) -> Recorder<K>
        ensures sink { result.sink ≡ sink }
        ensures tape { result.tape ≡ tape }
    {
        Recorder {
            sink,
            tape,
            readings,
        }
    }

    /// Notes these readings of the clock.
    fn reads(&mut self, readings: Readings)
        ensures tape { self.new.tape ≡ missed readings.missed (read (listed readings) self.old.tape) }
        ensures sink { self.new.sink ≡ self.old.sink }
    {
        for time in readings.times() {
            self.tape.note(Front::of_kind(READ, *time), &[]);
        }
        self.tape.miss(readings.missed());
    }

    /// Writes as many of the bytes that wait as the sink takes in one call.
    pub(crate) fn flush(&mut self)
        ensures { Writes (K.held self.old.sink) (K.held self.new.sink) self.old.tape self.new.tape }
    {
        if let Ok(count) = self.sink.write(self.tape.waiting()) {
            self.tape.drop_first(count);
        }
    }

    /// Notes the readings since the last call, and then an entry.
    fn takes(&mut self, front: Front, bytes: &[u8])
        ensures notes { Notes (entry front bytes.now) self.old.tape self.new.tape }
        ensures sink { self.new.sink ≡ self.old.sink }
    {
        let readings = self.readings.replace(Readings::none());
        self.reads(readings);
        self.tape.note(front, bytes);
    }

    /// Appends an entry. If there may be too little room for it, what waits is written first.
    pub(crate) fn append(&mut self, front: Front, bytes: &[u8])
        ensures { Appended K.held (entry front bytes.now) self.old self.new }
    {
        if self.tape.fits(front, bytes) {
            self.takes(front, bytes);
            return;
        }
        self.flush();
        self.takes(front, bytes);
    }

    /// Appends an entry, and writes what waits.
    pub(crate) fn append_now(&mut self, front: Front, bytes: &[u8])
        ensures { Appended K.held (entry front bytes.now) self.old self.new }
    {
        self.takes(front, bytes);
        self.flush();
    }

    /// Appends that the monitor ended with this status.
    pub fn ends(&mut self, status: u8)
        ensures { Appended K.held (entry (of_kind END status) []) self.old self.new }
    {
        self.append_now(Front::of_kind(END, u64::from(status)), &[]);
    }
}

impl<K: LifeSink + Drop> Recorder<K> {
    /// Begins the record of a new life. What waits of the old one, and can't be written, is dropped.
    pub(crate) fn begins(&mut self)
        ensures { self.new.tape ≡ empty }
    {
        self.flush();
        self.tape.clear();
        self.sink.begins();
    }
}
