ghost use Rattle.std.specs.Prelude.{◌≡◌, IfOk};
ghost use Rattle.mon_hello.specs.Formats.{a_hello, is_mark};
ghost use Rattle.mon_hello.specs.Greets.{is_hello};

use crate::encode::put_hello;
use crate::identity::Identity;
use mon_bytes::{Bytes, Items, Out, OutOfMemory, Word};
use mon_link::Address;
use mon_types::Rank;
use std::alloc::Global;

/// The version of the program.
pub const VERSION: &str = "1.0.0";

/// The byte with which a hello begins that may be answered. No message begins with it, no piece of one, and no frame.
pub(crate) const MARK: u8 = 4;

/// The byte with which a hello begins that answers another one, and isn't answered itself. Nothing else begins with it.
pub(crate) const ANSWER_MARK: u8 = 6;

/// The most bytes of a version.
pub const MOST_VERSION: usize = 32;

/// What a monitor says of itself.
#[derive(Drop)]
pub struct Hello {
    /// Whether it answers another hello.
    pub answers: bool,
    /// The version of its program.
    pub version: Word<MOST_VERSION>,
    pub identity: Identity,
    pub rank: Rank,
    /// Where it looks for the monitors, in order of rank.
    pub addresses: Items<Address>,
}

impl Hello {
    /// The datagram of a hello.
    pub fn encode(&self, alloc: Global) -> Result<Bytes, OutOfMemory>
        ensures { IfOk result (λ bytes. bytes ≡ a_hello.text self.now) }
    {
        let mut out = Out::new(alloc);
        put_hello(&mut out, self)?;
        Ok(Bytes::new(out.into_bytes()))
    }
}

/// Whether a hello begins with this byte.
pub(crate) fn is_mark(byte: u8) -> bool
    ensures { result ≡ is_mark byte }
{
    byte == MARK || byte == ANSWER_MARK
}

/// Whether a datagram begins as a hello does.
pub(crate) fn is_hello(bytes: &[u8]) -> bool
    ensures { result ≡ is_hello bytes.now }
{
    match bytes.first() {
        Some(mark) => is_mark(*mark),
        None => false,
    }
}
