//! What the acts of a leader read.

ghost use Rattle.std.specs.Prelude.{◌≡◌};

use mon_msg::Me;
use mon_stored::Here;
use mon_types::{Epoch, Moment};
use std::alloc::Global;

/// What an act reads beside its draft. Its messages are of this epoch.
#[derive(Clone, Copy)]
pub(crate) struct Act<'a> {
    pub(crate) alloc: Global,
    pub(crate) me: &'a Me,
    pub(crate) epoch: Epoch,
    pub(crate) time: Moment,
}

impl<'a> Act<'a> {
    /// What an act of this epoch reads.
    pub(crate) fn of(here: &Here<'a>, epoch: Epoch) -> Act<'a>
        ensures { result ≡ record { alloc = here.now.alloc; me = here.now.me; epoch = epoch; time = here.now.time } }
    {
        Act {
            alloc: here.alloc,
            me: here.me,
            epoch,
            time: here.time,
        }
    }
}
