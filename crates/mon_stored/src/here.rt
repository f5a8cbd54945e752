//! What is fixed during an event: the store as it was, the monitor and the time.

ghost use Rattle.std.specs.Prelude.{◌≡◌};
ghost use Rattle.mon_msg.specs.Protocol.Readings.{epoch_of, readings_of};

use crate::stored::Stored;
use mon_kv::Kv;
use mon_msg::Me;
use mon_types::{Epoch, Moment, Version};
use std::alloc::Global;

/// The monitor that an input reaches, its store before the event, and the time of the input.
#[derive(Clone, Copy)]
pub struct Here<'a> {
    pub alloc: Global,
    pub kv: &'a Kv,
    pub me: &'a Me,
    pub time: Moment,
}

impl Here<'_> {
    /// This monitor's epoch.
    pub fn own_epoch(&self) -> Epoch
        ensures { result ≡ epoch_of (readings_of self.now.kv.now) }
    {
        Stored::of(self.alloc, self.kv).epoch()
    }

    /// This monitor's last committed version.
    pub fn own_last(&self) -> Version
        ensures { result ≡ (readings_of self.now.kv.now).last }
    {
        Stored::of(self.alloc, self.kv).last()
    }
}
