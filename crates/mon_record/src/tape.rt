ghost use Rattle.std.specs.Prelude.{◌≡◌, ◌≤◌, ◌<◌, ◌+◌, ◌^◌, ◌++◌, drop, length, IfOk};
ghost use Rattle.mon_record.specs.Entries.{entry, gap, reading};
ghost use Rattle.mon_record.specs.Tapes.{appended, dropped, empty, fits, missed, noted};
ghost use Rattle.mon_types.specs.Faults.{risen};

use crate::entry::{Front, GAP, HEAD, READ};
use mon_bytes::OutOfMemory;
use std::alloc::Global;
use std::marker::Model;

/// The most bytes that wait to be written.
pub(crate) const MOST_WAITING: usize = 262_144;

/// The entries of a record that wait to be written, and how many are missing after them.
#[derive(Drop)]
pub struct Tape {
    room: Vec<u8>,
    end: usize,
    lost: u64,
}

impl Model for Tape {
    ghost use Rattle.std.specs.Prelude.{◌≡◌, ◌≤◌, length, take};
    ghost use Rattle.mon_record.specs.Tapes.{TapeView, MOST_WAITING};

    ghost Value = { TapeView };

    ghost view = { λ t. record { waiting = take t.end t.room.items; lost = t.lost } };

    ghost invariant = { λ t. (length t.room.items ≡ MOST_WAITING) × (t.end ≤ MOST_WAITING) };
}

impl Tape {
    /// Nothing waits, and nothing is missing.
    pub fn new(alloc: Global) -> Result<Tape, OutOfMemory>
        ensures { IfOk result (λ tape. tape ≡ empty) }
    {
        Ok(Tape {
            room: vec![in alloc; 0; MOST_WAITING]?,
            end: 0,
            lost: 0,
        })
    }

    /// The bytes that wait.
    pub fn waiting(&self) -> &[u8]
        ensures waiting { result.now ≡ self.now.waiting }
        ensures most { length self.now.waiting ≤ MOST_WAITING }
    {
        &self.room.as_slice()[..self.end]
    }

    /// Drops all that waits, and what is missing.
    pub(crate) fn clear(&mut self)
        ensures { self.new ≡ empty }
    {
        self.end = 0;
        self.lost = 0;
    }

    /// Drops the first `count` bytes that wait.
    pub(crate) fn drop_first(&mut self, count: usize)
        requires { count ≤ length self.old.waiting }
        ensures { self.new ≡ dropped count self.old }
    {
        if count == self.end {
            self.end = 0;
            return;
        }
        self.room.as_mut_slice().rotate_left(count);
        self.end -= count;
    }

    /// Appends these bytes to those that wait.
    fn put(&mut self, bytes: &[u8])
        requires { length self.old.waiting + length bytes.now ≤ MOST_WAITING }
        ensures { self.new ≡ appended bytes.now self.old }
    {
        let (start, end) = (self.end, self.end + bytes.len());
        self.room.as_mut_slice()[start..end].copy_from_slice(bytes);
        self.end = end;
    }

    /// How many bytes the entry takes that says how many are missing: none if none is.
    #[tactic(auto, using(crate::proofs::Tapes::gap_length))]
    fn gap_length(&self) -> usize
        ensures length { result ≡ length (gap self.now.lost) }
        ensures most { result ≤ HEAD }
    {
        if self.lost == 0 { 0 } else { HEAD }
    }

    /// Whether an entry with these bytes fits, after the one that says how many are missing.
    #[tactic(auto, using(crate::proofs::Tapes::entry_length))]
    pub(crate) fn fits(&self, front: Front, bytes: &[u8]) -> bool
        ensures { result ≡ fits (entry front bytes.now) self.now }
    {
        self.waiting().len() + self.gap_length() + HEAD + bytes.len() <= MOST_WAITING
    }

    /// Appends the entry that says how many are missing, if any is.
    fn put_gap(&mut self)
        requires { length self.old.waiting + length (gap self.old.lost) ≤ MOST_WAITING }
        ensures { self.new ≡ record { waiting = self.old.waiting ++ gap self.old.lost; lost = 0 } }
    {
        if self.lost > 0 {
            self.put(&Front::of_kind(GAP, self.lost).head(0));
            self.lost = 0;
        }
    }

    /// Notes an entry: it is appended if it fits, and otherwise is missing.
    pub(crate) fn note(&mut self, front: Front, bytes: &[u8])
        ensures { self.new ≡ noted (entry front bytes.now) self.old }
    {
        if self.fits(front, bytes) {
            self.put_gap();
            self.put(&front.head(bytes.len() as u32));
            self.put(bytes);
        } else {
            self.miss(1);
        }
    }

    /// Notes that this many more entries are missing.
    pub(crate) fn miss(&mut self, count: u64)
        ensures { self.new ≡ missed count self.old }
    {
        self.lost = self.lost.saturating_add(count);
    }
}
