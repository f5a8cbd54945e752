use mon_bytes::{OutOfMemory, Short};
use thiserror::Error;

/// Why a datagram wasn't taken. A refusal leaves what is kept unchanged.
#[derive(Clone, Copy, Debug, PartialEq, Eq, Error)]
pub enum FragRefused {
    /// It has more than 60,000 bytes.
    #[error("the datagram is too long")]
    TooLong,
    /// The field of its header that begins here doesn't fit.
    #[error("cut at {at}")]
    Cut { at: usize },
    /// What begins here isn't as it is in a piece.
    #[error("out of form at {at}")]
    Form { at: usize },
    /// The piece is of a message whose length an earlier piece gave differently, or different bytes came for its
    /// place.
    #[error("the piece contradicts an earlier one")]
    Clash,
    #[error("out of memory")]
    OutOfMemory,
}

impl From<Short> for FragRefused {
    ghost use Rattle.std.specs.Prelude.{◌≡◌};
    ghost use Rattle.mon_frag.specs.declared.refused.FragRefused.TheVariants.{Cut};

    ghost from_gives = { λ s e. e ≡ Cut s.at };

    fn from(s: Short) -> FragRefused {
        FragRefused::Cut { at: s.at }
    }
}

impl From<OutOfMemory> for FragRefused {
    ghost use Rattle.std.specs.Prelude.{◌≡◌};
    ghost use Rattle.mon_frag.specs.declared.refused.FragRefused.TheVariants.{OutOfMemory as no_memory};

    ghost from_gives = { λ _ e. e ≡ no_memory };

    fn from(_e: OutOfMemory) -> FragRefused {
        FragRefused::OutOfMemory
    }
}
