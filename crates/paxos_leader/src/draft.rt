//! What an event at a leader has done so far.

ghost use Rattle.std.specs.Prelude.{◌≡◌, ◌++◌, [], map, option_to_list, IfOk};
ghost use Rattle.mon_msg.specs.Protocol.Sending.{members as members_of, message_to};

use crate::seen::Act;
use mon_bytes::{Items, OutOfMemory};
use mon_msg::plan::Sent;
use mon_msg::{Body, Leader};
use mon_plan::{members, message, send_each};
use mon_tx::Transaction;
use mon_types::{Rank, RankSet};
use std::alloc::Global;

/// What an event has written and sent so far, and what the leader remembers then.
#[derive(Drop)]
pub struct Draft {
    pub tx: Transaction,
    pub out: Items<Sent>,
    pub state: Leader,
}

impl Draft {
    /// A draft that has written and sent nothing. It takes no memory.
    pub fn new(alloc: Global, state: Leader) -> Draft
        ensures { result ≡ record { tx = []; out = []; state = state } }
    {
        Draft {
            tx: Transaction::new(alloc),
            out: Items::new(alloc),
            state,
        }
    }
}

/// Appends a copy of a message for each other member of a quorum except the last one. Returns that last member too, if
/// there is one.
fn send_to_all_but_last(
    act: &Act<'_>,
    mut out: Items<Sent>,
    quorum: RankSet,
    body: &Body,
) -> Result<(Items<Sent>, Option<Rank>), OutOfMemory>
    ensures { IfOk result (λ told.
        told.0 ++ map (message_to act.now.me.now act.now.epoch body.now) (option_to_list told.1) ≡
        out ++ map (message_to act.now.me.now act.now.epoch body.now) (members_of act.now.me.now quorum)) }
{
    let mut peons = members(act.alloc, act.me, quorum)?;
    let last = peons.pop();
    send_each(
        act.alloc,
        &mut out,
        act.me,
        act.epoch,
        peons.as_slice(),
        body,
    )?;
    Ok((out, last))
}

/// Appends a message for each other member of a quorum to what was sent so far. The body is copied for all of them but
/// the last.
pub(crate) fn send_to_members(
    act: &Act<'_>,
    out: Items<Sent>,
    quorum: RankSet,
    body: Body,
) -> Result<Items<Sent>, OutOfMemory>
    ensures { IfOk result (λ sent.
        sent ≡ out ++ map (message_to act.now.me.now act.now.epoch body) (members_of act.now.me.now quorum)) }
{
    let told = send_to_all_but_last(act, out, quorum, &body);
    let (mut out, last) = match told {
        Ok(told) => told,
        Err(no_memory) => {
            drop(body);
            return Err(no_memory);
        }
    };
    match last {
        None => drop(body),
        Some(last) => out.push(message(act.me, act.epoch, body, last))?,
    }
    Ok(out)
}
