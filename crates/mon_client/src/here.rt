//! What each row reads beside what comes and what is remembered of clients.

ghost use Rattle.std.specs.Prelude.{◌≡◌};
ghost use Rattle.mon_msg.specs.Protocol.Readings.{epoch_of, readings_of};
ghost use Rattle.mon_msg.specs.Protocol.Sending.{answer_to};

use mon_kv::Kv;
use mon_msg::plan::Sent;
use mon_msg::{Me, Origin, Reply, View};
use mon_plan::answer;
use mon_stored::Stored;
use mon_types::{Epoch, Moment};
use std::alloc::Global;

/// A monitor at an event under way: its store, its rank, what the other roles know, and the time.
#[derive(Clone, Copy)]
pub(crate) struct Here<'a> {
    pub(crate) alloc: Global,
    pub(crate) kv: &'a Kv,
    pub(crate) me: &'a Me,
    pub(crate) view: &'a View,
    pub(crate) time: Moment,
}

impl Here<'_> {
    /// The monitor's epoch.
    pub(crate) fn epoch(&self) -> Epoch
        ensures { result ≡ epoch_of (readings_of self.now.kv.now) }
    {
        Stored::of(self.alloc, self.kv).epoch()
    }

    /// The answer to a command's origin: a reply to the own client, or a ROUTE to the peon that forwarded it.
    pub(crate) fn answer(&self, origin: Origin, reply: Reply) -> Sent
        ensures { result ≡ answer_to self.now.me.now (epoch_of (readings_of self.now.kv.now)) origin reply }
    {
        answer(self.me, self.epoch(), origin, reply)
    }
}
