use mon_bytes::OutOfMemory;
use thiserror::Error;

/// Why a client no longer follows.
#[derive(Clone, Copy, Debug, PartialEq, Eq, Error)]
pub enum FollowEnd {
    /// The link reported that it is closed.
    #[error("the link is closed")]
    Closed,
    /// All iterations were made.
    #[error("turns used")]
    TurnsUsed,
    /// The link couldn't receive, and counted a fault.
    #[error("the link failed")]
    LinkFault,
    /// A line couldn't be written whole. A prefix of it may be there.
    #[error("the sink failed")]
    WriteFault,
    #[error("out of memory")]
    OutOfMemory,
}

impl From<OutOfMemory> for FollowEnd {
    ghost use Rattle.std.specs.Prelude.{◌≡◌};
    ghost use Rattle.map_follower.specs.declared.end.FollowEnd.TheVariants.{OutOfMemory as no_memory};

    ghost from_gives = { λ _ e. e ≡ no_memory };

    fn from(_e: OutOfMemory) -> FollowEnd {
        FollowEnd::OutOfMemory
    }
}
