use mon_bytes::OutOfMemory;
use mon_core::CoreStop;
use mon_disk::NodeDisks;
use mon_types::Which;
use thiserror::Error;

/// Why a node ended.
#[derive(Clone, Copy, Debug, PartialEq, Eq, Error)]
pub enum NodeEnd {
    /// The link reported that it is closed.
    #[error("the link is closed")]
    Closed,
    /// All iterations that were asked for were made.
    #[error("turns used")]
    TurnsUsed,
    /// A disk failed.
    #[error("a disk failed")]
    DiskFault,
    /// The link couldn't receive.
    #[error("the link failed")]
    LinkFault,
    /// The store's map would have the size `would_be`, above 268,435,456.
    #[error("the map would count with {would_be}")]
    Full { would_be: u64 },
    /// A number of this kind would pass 2^62. `Seq` is also the kind of the numbers of messages longer than a datagram.
    #[error("a number is spent")]
    Spent { which: Which },
    #[error("out of memory")]
    OutOfMemory,
}

impl From<OutOfMemory> for NodeEnd {
    ghost use Rattle.std.specs.Prelude.{◌≡◌};
    ghost use Rattle.mon_node.specs.declared.end.NodeEnd.TheVariants.{OutOfMemory as no_memory};

    ghost from_gives = { λ _ e. e ≡ no_memory };

    fn from(_e: OutOfMemory) -> NodeEnd {
        NodeEnd::OutOfMemory
    }
}

impl From<CoreStop> for NodeEnd {
    ghost use Rattle.std.specs.Prelude.{◌≡◌};
    ghost use Rattle.mon_node.specs.Ends.{of_core};

    ghost from_gives = { λ stop e. e ≡ of_core stop };

    fn from(stop: CoreStop) -> NodeEnd {
        match stop {
            CoreStop::OutOfMemory => NodeEnd::OutOfMemory,
            CoreStop::Spent { which } => NodeEnd::Spent { which },
        }
    }
}

/// A node that ended.
#[derive(Drop)]
pub struct Served<D> {
    pub end: NodeEnd,
    /// How many iterations were begun. The start isn't one.
    pub turns: u64,
    /// The disks of the store, which is closed.
    pub disks: NodeDisks<D>,
}
