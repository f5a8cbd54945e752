ghost use Rattle.std.specs.Prelude.{◌≡◌, []};
ghost use Rattle.mon_link.specs.Links.{CallsNext, CallsSend};
ghost use Rattle.mon_link.specs.MemoryLinks.{LedTo, state_of};

use crate::link::{Got, Keeps, Link, Outgoing, Peer};
use crate::outside::raised;
use mon_bytes::Bytes;
use mon_types::Stop;
use std::alloc::Global;
use std::marker::Model;
use std::vec::IntoIter;

/// A link that returns the items of a list and then `Closed`, and notes what it was asked. A call has the number after
/// that of the last call that it noted. A call that ran out of memory isn't noted, so it has no number.
#[derive(Drop)]
pub struct MemoryLink {
    alloc: Global,
    got: IntoIter<Got>,
    sent: Vec<Outgoing>,
    waits: Vec<u64>,
    failing_next: Vec<u64>,
    failing_send: Vec<u64>,
    faults: u64,
}

impl Model for MemoryLink {
    ghost use Rattle.std.specs.Vec.Iter.{into_iter_items};
    ghost use Rattle.mon_link.specs.MemoryLinks.{MemoryTalk};

    ghost Value = { MemoryTalk };

    ghost view = { λ l. record {
      observed = record {
        left = into_iter_items l.got;
        sent = l.sent.items;
        waits = l.waits.items;
        failing_next = l.failing_next.items;
        failing_send = l.failing_send.items;
      };
      faults = l.faults;
    } };
}

impl MemoryLink {
    /// A link that gives these, of which no call was made yet. The lists name the calls that fail, by their numbers from 1.
    /// It takes no memory.
    pub fn new(
        alloc: Global,
        got: Vec<Got>,
        failing_next: Vec<u64>,
        failing_send: Vec<u64>,
    ) -> MemoryLink
        ensures { result ≡ record {
          observed = record { left = got.items; sent = []; waits = []; failing_next = failing_next.items; failing_send = failing_send.items };
          faults = 0;
        } }
    {
        MemoryLink {
            alloc,
            got: got.into_iter(),
            sent: Vec::new(alloc),
            waits: Vec::new(alloc),
            failing_next,
            failing_send,
            faults: 0,
        }
    }

    /// The datagrams that were to be sent, in order.
    pub fn sent(&self) -> &[Outgoing]
        ensures { result.now ≡ self.now.observed.sent }
    {
        self.sent.as_slice()
    }

    /// The waits that were asked, in milliseconds and in order.
    pub fn waits(&self) -> &[u64]
        ensures { result.now ≡ self.now.observed.waits }
    {
        self.waits.as_slice()
    }
}

impl Link for MemoryLink {
    ghost state = { state_of };

    ghost history = { LedTo };

    fn next(&mut self, wait: u64) -> Result<Got, Stop>
        ensures calls { CallsNext wait result (state_of self.old) (state_of self.new) }
    {
        let fails = self.failing_next.contains(&raised(self.waits.len() as u64));
        if self.waits.push(wait).is_err() {
            return Err(Stop::OutOfMemory);
        }
        if fails {
            self.faults = raised(self.faults);
            return Err(Stop::Failed);
        }
        match self.got.next() {
            Some(got) => Ok(got),
            None => Ok(Got::Closed),
        }
    }

    fn send(&mut self, to: Peer, bytes: &[u8]) -> Result<(), Stop>
        ensures calls { CallsSend to bytes.now result (state_of self.old) (state_of self.new) }
    {
        let fails = self.failing_send.contains(&raised(self.sent.len() as u64));
        let Ok(bytes) = Vec::from_slice(self.alloc, bytes) else {
            return Err(Stop::OutOfMemory);
        };
        let bytes = Bytes::new(bytes);
        if self.sent.push(Outgoing { to, bytes }).is_err() {
            return Err(Stop::OutOfMemory);
        }
        if fails {
            return Err(Stop::Failed);
        }
        Ok(())
    }
}

impl Keeps for MemoryLink {
    ghost unkept = { λ l. 0 };

    /// It keeps no copies to send them again.
    fn unkept(&self) -> u64 {
        0
    }
}
