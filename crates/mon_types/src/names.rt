use thiserror::Error;

/// A kind of number that can run out, at 2^62.
#[derive(Clone, Copy, Debug, PartialEq, Eq)]
pub enum Which {
    /// A monitor's epoch of elections.
    Epoch,
    /// A proposal number.
    Pn,
    /// A version of the log or of a service.
    Version,
    /// How often a monitor was started.
    Boot,
    /// The number under which a peon forwards a command, or a monitor sends a long message.
    Seq,
    /// The number in the cookie of a synchronization.
    Cookie,
}

/// One of a monitor's two disks.
#[derive(Clone, Copy, Debug, PartialEq, Eq)]
pub enum Side {
    /// The first disk.
    A,
    /// The second disk.
    B,
}

impl Side {
    ghost use Rattle.std.specs.Prelude.{◌≡◌};
    ghost use Rattle.mon_types.specs.Sides.{other};

    /// The other disk.
    pub fn other(self) -> Side
        ensures { result ≡ other self }
    {
        match self {
            Side::A => Side::B,
            Side::B => Side::A,
        }
    }
}

/// Why a call of a device failed.
#[derive(Clone, Copy, Debug, PartialEq, Eq, Error)]
pub enum Stop {
    /// The device failed, and its count of faults rose, unless it was the greatest 64-bit number.
    #[error("the device failed")]
    Failed,
    #[error("out of memory")]
    OutOfMemory,
}
