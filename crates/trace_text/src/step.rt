use mon_bytes::OutOfMemory;
use mon_types::{Epoch, Rank, Version};
use mon_wire::{Items, Message, Phase, Reply, Session};
use std::alloc::Global;
use std::marker::Model;

/// A message to the monitor `to`, and its number among all that were sent, from 1 on.
#[derive(Drop)]
pub struct Numbered {
    pub number: u64,
    pub to: Rank,
    pub message: Message,
}

/// A reply, the monitor that sent it, and the session that it is for.
#[derive(Drop)]
pub struct Replied {
    pub rank: Rank,
    pub session: Session,
    pub reply: Reply,
}

/// Replies in the order in which they were given.
#[derive(Drop)]
pub struct Replies {
    replies: Vec<Replied>,
}

impl Model for Replies {
    ghost use Rattle.std.specs.Prelude.{List};
    ghost use Rattle.std.specs.Coded.{codes};
    ghost use Rattle.map_kv.specs.contracts.map.KvMap as kv_map;
    ghost use Rattle.trace_text.specs.declared.step.Replied.{Replied};

    ghost Value = { List Replied };

    ghost coded = { Prim.hlevel (codes, kv_map.the_row.coded) };

    ghost view = { λ x. x.replies.items };
}

impl Replies {
    ghost use Rattle.std.specs.Prelude.{◌≡◌, [], ◌∷◌, ◌++◌, OnOk, OnErr};

    /// No replies. It takes no memory.
    pub fn new(alloc: Global) -> Replies
        ensures { result ≡ [] }
    {
        Replies {
            replies: Vec::new(alloc),
        }
    }

    /// Appends a reply. After an `Err` the replies are unchanged.
    pub fn push(&mut self, reply: Replied) -> Result<(), OutOfMemory>
        ensures ok { OnOk result (self.new ≡ self.old ++ reply ∷ []) }
        ensures err { OnErr result (self.new ≡ self.old) }
    {
        self.replies.push(reply)?;
        Ok(())
    }

    /// The replies.
    pub fn as_slice(&self) -> &[Replied]
        ensures { result.now ≡ self.now }
    {
        self.replies.as_slice()
    }
}

/// The state of a monitor after an event.
#[derive(Clone, Copy, PartialEq, Eq)]
pub struct StateLine {
    pub phase: Phase,
    pub epoch: Epoch,
    /// The last committed version.
    pub last: Version,
}

/// What became of an event.
#[derive(Clone, Copy, PartialEq, Eq)]
pub enum Outcome {
    /// The monitor took it.
    Ran,
    /// The monitor is down, and nothing happened.
    Down,
    /// No message of this number was sent, and nothing happened.
    NoMessage,
    /// The monitor stopped in the event. Its transaction is kept in the store, or lost.
    Crashed { kept: bool },
    /// A disk failed in the event, and the monitor stopped. Its transaction is kept in the store, or lost.
    Failed { kept: bool },
}

/// What an event did.
#[derive(Drop)]
pub struct StepLine {
    pub outcome: Outcome,
    /// How many changes its transaction has.
    pub ops: u32,
    /// The monitor's state, if the event changed it or is a start.
    pub state: Option<StateLine>,
    /// The messages that it sent to other monitors, in order.
    pub sent: Items<Numbered>,
    pub replies: Replies,
}
