ghost use Rattle.std.specs.Prelude.{◌≡◌, ℕ, List};
ghost use Rattle.mon_link.specs.Histories.{Happened, GoesOn};
ghost use Rattle.mon_link.specs.Histories.Happened.{Received, WasSent};
ghost use Rattle.mon_link.specs.Links.{LinkState, CallsNext, CallsSend};

use mon_bytes::Bytes;
use mon_types::{Rank, Stop};

/// Who is at the other end of a link.
#[derive(Clone, Copy, Debug, PartialEq, Eq)]
pub enum Peer {
    Monitor(Rank),
    Client(u32),
}

/// What a link returns if it doesn't fail.
#[derive(Drop)]
pub enum Got {
    Datagram { from: Peer, bytes: Bytes },
    /// Nothing came in time.
    Idle,
    /// Nothing will come.
    Closed,
}

/// A datagram that was to be sent.
#[derive(Drop)]
pub struct Outgoing {
    pub to: Peer,
    pub bytes: Bytes,
}

/// Datagrams that come and go. Any of them may be lost on its way, come twice, or come late.
pub trait Link {
    /// What is still to come on the link, and what it was asked to send, if they can be seen; and how many receives
    /// failed so far.
    ghost state: { Self → LinkState };

    /// The lists of calls, oldest first, that can have led to the link as it is.
    ghost history: { Self → List Happened → Type 0 };

    /// Returns what comes next, after at most `wait` milliseconds. A fault is counted if and only if the result is
    /// `Failed`.
    fn next(&mut self, wait: u64) -> Result<Got, Stop>
        ensures calls { CallsNext wait result (state self.old) (state self.new) }
        ensures goes_on { GoesOn (history self.old) (Received wait result) (history self.new) };

    /// Sends a datagram. One that couldn't be sent is lost, and isn't counted as a fault.
    fn send(&mut self, to: Peer, bytes: &[u8]) -> Result<(), Stop>
        ensures calls { CallsSend to bytes.now result (state self.old) (state self.new) }
        ensures goes_on { GoesOn (history self.old) (WasSent to bytes.now result) (history self.new) };
}

/// What keeps copies of the datagrams that it was given to send.
pub trait Keeps {
    /// How many copies weren't kept because there was no memory for them.
    ghost unkept: { Self → ℕ };

    /// How many copies weren't kept because there was no memory for them.
    fn unkept(&self) -> u64
        ensures { result ≡ unkept self.now };
}
