ghost use Rattle.std.specs.Prelude.{◌≡◌};
ghost use Rattle.mon_tx.specs.declared.refusal.TxRefused.TheVariants.{Cut, OutOfMemory as no_memory};

use mon_bytes::{OutOfMemory, Short};
use thiserror::Error;

/// Why bytes are no transaction: the first field at fault, at its place.
#[derive(Clone, Copy, Debug, PartialEq, Eq, Error)]
pub enum TxRefused {
    /// The bytes end before the field that begins here does.
    #[error("cut at {at}")]
    Cut { at: usize },
    /// An unknown format or kind, a range in the first format, or the second format without a range.
    #[error("unknown kind at {at}")]
    Kind { at: usize },
    /// A length outside its bounds, or a byte that isn't graphic.
    #[error("no name at {at}")]
    Name { at: usize },
    /// More bytes than a transaction may have.
    #[error("{len} bytes")]
    TooLong { len: usize },
    /// The first byte after the end.
    #[error("a byte too many at {at}")]
    Rest { at: usize },
    #[error("out of memory")]
    OutOfMemory,
    /// A number above 2^62, or a range that doesn't go upward.
    #[error("out of range at {at}")]
    Range { at: usize },
}

impl From<Short> for TxRefused {
    ghost from_gives = { λ s e. e ≡ Cut s.at };

    fn from(s: Short) -> TxRefused {
        TxRefused::Cut { at: s.at }
    }
}

impl From<OutOfMemory> for TxRefused {
    ghost from_gives = { λ _ e. e ≡ no_memory };

    fn from(_e: OutOfMemory) -> TxRefused {
        TxRefused::OutOfMemory
    }
}
