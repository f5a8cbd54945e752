ghost use Rattle.std.specs.Prelude.{◌≡◌};
ghost use Rattle.mon_world.specs.Stops.{CanStop, stop_of};

use mon_bytes::OutOfMemory;
use mon_core::CoreStop;
use mon_store::StoreStop;
use mon_types::Which;
use thiserror::Error;

/// Why a run stops. At `Spent` and `Full` the model's run stops before the event. After any stop the world isn't used
/// again.
#[derive(Clone, Copy, Debug, PartialEq, Eq, Error)]
pub enum WorldStop {
    /// An allocation was refused.
    #[error("out of memory")]
    OutOfMemory,
    /// A number of this kind would pass 2^62.
    #[error("spent: {which:?}")]
    Spent { which: Which },
    /// A monitor's map would have the size `would_be`, above 268,435,456.
    #[error("the map would have the size {would_be}")]
    Full { would_be: u64 },
}

impl From<OutOfMemory> for WorldStop {
    ghost use Rattle.std.specs.Prelude.{◌≡◌};
    ghost use Rattle.mon_world.specs.declared.stop.WorldStop.TheVariants.{OutOfMemory as no_memory};

    ghost from_gives = { λ _ e. e ≡ no_memory };

    fn from(_e: OutOfMemory) -> WorldStop {
        WorldStop::OutOfMemory
    }
}

impl From<CoreStop> for WorldStop {
    ghost use Rattle.std.specs.Prelude.{◌≡◌};
    ghost use Rattle.mon_world.specs.Stops.{core_stop};

    ghost from_gives = { λ stop e. e ≡ core_stop stop };

    fn from(stop: CoreStop) -> WorldStop {
        match stop {
            CoreStop::OutOfMemory => WorldStop::OutOfMemory,
            CoreStop::Spent { which } => WorldStop::Spent { which },
        }
    }
}

/// The world's stop for a store's. The other stops can't happen: no reaction's transaction is too long, and no disk
/// fails unless an event injects a fault.
pub(crate) fn stop_of(stop: StoreStop) -> WorldStop
    requires { CanStop stop }
    ensures { result ≡ stop_of stop }
{
    match stop {
        StoreStop::Full { would_be } => WorldStop::Full { would_be },
        StoreStop::OutOfMemory => WorldStop::OutOfMemory,
        StoreStop::TooLong { .. } | StoreStop::Broken | StoreStop::DiskFault => unreachable!(),
    }
}
