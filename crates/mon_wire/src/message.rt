ghost use Rattle.std.specs.Prelude.{◌≡◌, IfOk};

use crate::body::Body;
use mon_bytes::OutOfMemory;
use mon_types::{Epoch, Rank};
use std::alloc::Global;

/// What one monitor sends another, or a client and a monitor send each other.
#[derive(Drop)]
pub struct Message {
    /// The sender. It is 0 in a client's request.
    pub from: Rank,
    /// How many monitors the sender's map has.
    pub monitors: u8,
    /// The sender's epoch. It is 0 in a client's request.
    pub epoch: Epoch,
    pub body: Body,
}

impl Message {
    /// An equal message.
    pub fn copy(&self, alloc: Global) -> Result<Message, OutOfMemory>
        ensures { IfOk result (λ message. message ≡ self.now) }
    {
        Ok(Message {
            from: self.from,
            monitors: self.monitors,
            epoch: self.epoch,
            body: self.body.copy(alloc)?,
        })
    }
}
