//! The standard streams. Contracts see nothing of what they read or write, only whether a call failed.

ghost use Rattle.std.specs.Prelude.{◌≡◌, ◌≤◌, ◌<◌, None, Ok, Err, IfOk, OnOk, OnErr, length, is_some};
ghost use Rattle.std.specs.Io.{ReadsAtMost};
ghost use Rattle.mon_types.specs.declared.names.Stop.TheVariants.{Failed};
ghost use Rattle.mon_types.specs.Faults.{HasCause, risen};

use crate::outside::{Sink, Source, raised};
use mon_types::Stop;
use std::io::Read;

/// Standard input.
#[derive(Drop)]
pub struct StdinSource<R: Input + Copy> {
    rt: R,
    faults: u64,
}

impl<R: Input + Copy> StdinSource<R> {
    /// The standard input of `rt`, without a fault yet.
    pub fn new(rt: &R) -> StdinSource<R>
        ensures { result ≡ record { rt = rt.now; faults = 0 } }
    {
        StdinSource { rt: *rt, faults: 0 }
    }
}

impl<R: Input + Copy> Source for StdinSource<R> {
    ghost left = { λ _. None };

    ghost faults = { λ s. s.faults };

    fn read(&mut self, into: &mut [u8]) -> Result<usize, Stop>
        ensures bound { ReadsAtMost result into.new }
        ensures cause { HasCause self.old.faults self.new.faults result }
        ensures ok { OnOk result (self.new ≡ self.old) }
        ensures err { OnErr result ((result ≡ Err Failed) × (self.new ≡ record { rt = self.old.rt; faults = risen self.old.faults })) }
    {
        match self.rt.reader().read(into) {
            Ok(count) => Ok(count),
            Err(_) => {
                self.faults = raised(self.faults);
                Err(Stop::Failed)
            }
        }
    }
}

/// Standard output. A write that takes no byte of a piece is a fault too.
#[derive(Drop)]
pub struct StdoutSink<R: Print + Copy> {
    rt: R,
    faults: u64,
}

impl<R: Print + Copy> StdoutSink<R> {
    /// The standard output of `rt`, without a fault yet.
    pub fn new(rt: &R) -> StdoutSink<R>
        ensures { result ≡ record { rt = rt.now; faults = 0 } }
    {
        StdoutSink { rt: *rt, faults: 0 }
    }
}

impl<R: Print + Copy> Sink for StdoutSink<R> {
    ghost held = { λ _. None };

    ghost faults = { λ s. s.faults };

    fn write(&mut self, bytes: &[u8]) -> Result<usize, Stop>
        ensures bound { IfOk result (λ n. n ≤ length bytes.now) }
        ensures some { IfOk result (λ n. 0 < length bytes.now → 0 < n) }
        ensures cause { HasCause self.old.faults self.new.faults result }
        ensures ok { OnOk result (self.new ≡ self.old) }
        ensures err { OnErr result ((result ≡ Err Failed) × (self.new ≡ record { rt = self.old.rt; faults = risen self.old.faults })) }
    {
        match self.rt.write_some(bytes) {
            Ok(count) if count > 0 || bytes.is_empty() => Ok(count),
            _ => {
                self.faults = raised(self.faults);
                Err(Stop::Failed)
            }
        }
    }
}
