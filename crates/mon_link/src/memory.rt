ghost use Rattle.std.specs.Prelude.{◌≡◌, ℕ, List, [], Some, ◌+◌, ◌≤◌, ◌<◌, ◌++◌, ◌==◌, min, take, drop, length, IfOk, is_some};
ghost use Rattle.std.specs.List.{list_any};
ghost use Rattle.std.specs.Io.{ReadsAtMost};
ghost use Rattle.std.specs.Io.KnownBytes.{ReadConsumes, WriteAppends};
ghost use Rattle.mon_types.specs.Faults.{HasCause};
ghost use Rattle.mon_link.specs.Memory.{fails_next, read_answer, read_leaves, read_puts, WritesMemory};

use crate::outside::{Sink, Source, raised};
use mon_types::Stop;
use std::alloc::Global;
use std::marker::Model;

/// Copies what is there from an offset on, as much as there is room for.
fn copy_prefix(bytes: &[u8], at: usize, into: &mut [u8]) -> usize
    requires { at ≤ length bytes.now }
    ensures count { result ≡ min (length (drop at bytes.now)) (length into.old) }
    ensures copied { into.new ≡ take result (drop at bytes.now) ++ drop result into.old }
    ensures within { at + result ≤ length bytes.now }
    ensures front { drop at bytes.now ≡ take result into.new ++ drop (at + result) bytes.now }
    ensures end { result ≡ 0 → 0 < length into.new → at ≡ length bytes.now }
{
    let count = (bytes.len() - at).min(into.len());
    into[..count].copy_from_slice(&bytes[at..at + count]);
    count
}

/// Bytes to read, and the numbers of the calls that fail, from 1.
#[derive(Drop)]
pub struct MemorySource {
    bytes: Vec<u8>,
    at: usize,
    failing: Vec<u64>,
    calls: u64,
    faults: u64,
}

impl Model for MemorySource {
    ghost use Rattle.std.specs.Prelude.{◌≤◌, drop, vec_len};
    ghost use Rattle.mon_link.specs.Memory.{MemoryIn};

    ghost Value = { MemoryIn };

    ghost view = { λ s. record { left = drop s.at s.bytes.items; failing = s.failing.items; calls = s.calls; faults = s.faults } };

    ghost invariant = { λ s. s.at ≤ vec_len s.bytes };
}

impl MemorySource {
    /// A source of these bytes, of which no call was made yet.
    pub fn new(bytes: Vec<u8>, failing: Vec<u64>) -> MemorySource
        ensures { result ≡ record { left = bytes.items; failing = failing.items; calls = 0; faults = 0 } }
    {
        MemorySource {
            bytes,
            at: 0,
            failing,
            calls: 0,
            faults: 0,
        }
    }
}

impl Source for MemorySource {
    ghost left = { λ s. Some s.left };

    ghost faults = { λ s. s.faults };

    fn read(&mut self, into: &mut [u8]) -> Result<usize, Stop>
        ensures bound { ReadsAtMost result into.new }
        ensures bytes { ReadConsumes (Some self.old.left) (Some self.new.left) result into.new }
        ensures cause { HasCause self.old.faults self.new.faults result }
        ensures answer { result ≡ read_answer self.old into.old }
        ensures leaves { self.new ≡ read_leaves self.old into.old }
        ensures puts { into.new ≡ read_puts self.old into.old }
    {
        self.calls = raised(self.calls);
        if self.failing.contains(&self.calls) {
            self.faults = raised(self.faults);
            return Err(Stop::Failed);
        }
        let count = copy_prefix(self.bytes.as_slice(), self.at, into);
        self.at += count;
        Ok(count)
    }
}

/// What was written, and the numbers of the calls that fail, from 1.
#[derive(Drop)]
pub struct MemorySink {
    written: Vec<u8>,
    failing: Vec<u64>,
    calls: u64,
    faults: u64,
}

impl Model for MemorySink {
    ghost use Rattle.mon_link.specs.Memory.{MemoryOut};

    ghost Value = { MemoryOut };

    ghost view = { λ s. record { written = s.written.items; failing = s.failing.items; calls = s.calls; faults = s.faults } };
}

impl MemorySink {
    /// An empty sink, of which no call was made yet.
    pub fn new(alloc: Global, failing: Vec<u64>) -> MemorySink
        ensures { result ≡ record { written = []; failing = failing.items; calls = 0; faults = 0 } }
    {
        MemorySink {
            written: Vec::new(alloc),
            failing,
            calls: 0,
            faults: 0,
        }
    }

    /// The bytes that were written.
    pub fn written(&self) -> &[u8]
        ensures { result.now ≡ self.now.written }
    {
        self.written.as_slice()
    }
}

impl Sink for MemorySink {
    ghost held = { λ s. Some s.written };

    ghost faults = { λ s. s.faults };

    fn write(&mut self, bytes: &[u8]) -> Result<usize, Stop>
        ensures bound { IfOk result (λ n. n ≤ length bytes.now) }
        ensures some { IfOk result (λ n. 0 < length bytes.now → 0 < n) }
        ensures bytes { WriteAppends (Some self.old.written) (Some self.new.written) result bytes.now }
        ensures cause { HasCause self.old.faults self.new.faults result }
        ensures does { WritesMemory self.old self.new bytes.now result }
    {
        self.calls = raised(self.calls);
        if self.failing.contains(&self.calls) {
            self.faults = raised(self.faults);
            return Err(Stop::Failed);
        }
        if self.written.extend_from_slice(bytes).is_err() {
            return Err(Stop::OutOfMemory);
        }
        Ok(bytes.len())
    }
}
