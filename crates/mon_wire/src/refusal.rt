ghost use Rattle.mon_wire.specs.declared.refusal.MsgKind.TheVariants as fault;
ghost use Rattle.mon_wire.specs.declared.refusal.MsgRefused.TheVariants.{At, OutOfMemory as no_memory};
ghost use Rattle.std.specs.Prelude.{◌≡◌};

use mon_bytes::{OutOfMemory, Short};
use thiserror::Error;

/// The fault of the first faulty field of a message.
#[derive(Clone, Copy, Debug, PartialEq, Eq)]
pub enum MsgKind {
    /// The bytes end before the field does.
    Cut,
    /// The first byte isn't that of this format.
    Format,
    /// No message has this kind.
    Kind,
    /// The number of monitors isn't 1 to 15, or the sender's rank isn't below it.
    From,
    /// A number is above 2^62.
    Number,
    /// The field is outside its set.
    Value,
    /// The message has more than 1,048,576 bytes.
    TooLong,
    /// A byte follows the end.
    Rest,
}

/// Why bytes are no message.
#[derive(Clone, Copy, Debug, PartialEq, Eq, Error)]
pub enum MsgRefused {
    /// The first field at fault begins here.
    #[error("no message: {kind:?} at {at}")]
    At { at: usize, kind: MsgKind },
    #[error("out of memory")]
    OutOfMemory,
}

impl From<Short> for MsgRefused {
    ghost from_gives = { λ s e. e ≡ At s.at fault.Cut };

    fn from(s: Short) -> MsgRefused {
        MsgRefused::At {
            at: s.at,
            kind: MsgKind::Cut,
        }
    }
}

impl From<OutOfMemory> for MsgRefused {
    ghost from_gives = { λ _ e. e ≡ no_memory };

    fn from(_e: OutOfMemory) -> MsgRefused {
        MsgRefused::OutOfMemory
    }
}
