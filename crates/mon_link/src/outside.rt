ghost use Rattle.std.specs.Prelude.{◌≡◌, ℕ, List, Option, ◌≤◌, ◌<◌, length, IfOk, is_some};
ghost use Rattle.std.specs.Io.{ReadsAtMost};
ghost use Rattle.std.specs.Io.KnownBytes.{ReadConsumes, WriteAppends};
ghost use Rattle.mon_types.specs.Faults.{HasCause, risen};

use mon_types::Stop;

/// A count after one more call or fault. It saturates at `u64::MAX`.
pub(crate) fn raised(count: u64) -> u64
    ensures { result ≡ risen count }
{
    count.saturating_add(1)
}

/// Bytes that come in.
pub trait Source {
    /// The bytes that are left to read, if they are known.
    ghost left: { Self → Option (List ℕ) };

    /// The faults so far. The count never falls.
    ghost faults: { Self → ℕ };

    /// Reads some of the bytes that are left into the beginning of `into`, and returns how many. It returns 0 at the
    /// end of the input, or if `into` is empty. A call that isn't Ok has read nothing.
    fn read(&mut self, into: &mut [u8]) -> Result<usize, Stop>
        ensures bound { ReadsAtMost result into.new }
        ensures bytes { ReadConsumes (left self.old) (left self.new) result into.new }
        ensures visible { is_some (left self.new) ≡ is_some (left self.old) }
        ensures cause { HasCause (faults self.old) (faults self.new) result };
}

/// Bytes that go out.
pub trait Sink {
    /// The bytes that were written, if they can be seen.
    ghost held: { Self → Option (List ℕ) };

    /// The faults so far. The count never falls.
    ghost faults: { Self → ℕ };

    /// Writes a prefix of the bytes, and returns how many: at least one, unless there are none. A call that isn't Ok
    /// has taken nothing.
    fn write(&mut self, bytes: &[u8]) -> Result<usize, Stop>
        ensures bound { IfOk result (λ n. n ≤ length bytes.now) }
        ensures some { IfOk result (λ n. 0 < length bytes.now → 0 < n) }
        ensures bytes { WriteAppends (held self.old) (held self.new) result bytes.now }
        ensures visible { is_some (held self.new) ≡ is_some (held self.old) }
        ensures cause { HasCause (faults self.old) (faults self.new) result };
}
