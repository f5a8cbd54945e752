//! Sends the messages and replies of a monitor's reaction: the world keeps the messages, and the trace reports both.

ghost use Rattle.std.specs.Prelude.{◌≡◌, ℕ, suc, ◌≤◌, List, [], ◌∷◌, ◌++◌, length, map, IfOk, OnOk};
ghost use Rattle.mon_msg.specs.declared.plan.Sent.TheVariants.{Message as message_to};
ghost use Rattle.quorum_model.specs.Clients.{messages_of};
ghost use Rattle.mon_world.specs.Sending.{GoesOut, Sends};
ghost use Rattle.mon_world.specs.Represented.{envelope_of};

use mon_bytes::{Items, OutOfMemory};
use mon_msg::Message;
use mon_msg::plan::Sent;
use mon_types::Rank;
use std::alloc::Global;
use trace_text::{Numbered, Replied, Replies};

/// A message, and to whom it goes.
#[derive(Drop)]
pub(crate) struct Envelope {
    pub(crate) to: Rank,
    pub(crate) message: Message,
}

/// What one reaction sent: its messages with their numbers, and its replies.
#[derive(Drop)]
pub(crate) struct Gone {
    pub(crate) sent: Items<Numbered>,
    pub(crate) replies: Replies,
}

/// A copy of the last message, of which there is at least one.
fn last_copy(alloc: Global, messages: &[Envelope]) -> Result<Message, OutOfMemory>
    requires { 1 ≤ length messages.now }
    ensures { (before : List Envelope) (last : Envelope) → messages.now ≡ before ++ last ∷ []
        → IfOk result (λ copy. copy ≡ last.message) }
{
    let place = messages.len() - 1;
    let last = &messages[place];
    last.message.copy(alloc)
}

/// Appends a message to those of the world, and a copy of it with its number to what is reported.
fn send_message(
    alloc: Global,
    messages: &mut Vec<Envelope>,
    gone: &mut Gone,
    to: Rank,
    message: Message,
) -> Result<(), OutOfMemory>
    ensures { (rank : ℕ) → OnOk result
        (Sends rank (message_to to message) messages.old.items messages.new.items gone.old gone.new) }
{
    messages.push(Envelope { to, message })?;
    let copy = last_copy(alloc, messages.as_slice())?;
    gone.sent.push(Numbered {
        number: messages.len() as u64,
        to,
        message: copy,
    })?;
    Ok(())
}

/// Sends one message or reply of the monitor of this rank.
fn send_one(
    alloc: Global,
    messages: &mut Vec<Envelope>,
    gone: &mut Gone,
    rank: Rank,
    one: Sent,
) -> Result<(), OutOfMemory>
    ensures { OnOk result (Sends rank one messages.old.items messages.new.items gone.old gone.new) }
{
    match one {
        Sent::Message { to, message } => send_message(alloc, messages, gone, to, message),
        Sent::Reply { to, reply } => gone.replies.push(Replied {
            rank,
            session: to,
            reply,
        }),
    }
}

/// Sends all messages and replies of the monitor of this rank, in order, and returns what is reported of them.
pub(crate) fn send(
    alloc: Global,
    messages: &mut Vec<Envelope>,
    rank: Rank,
    out: Items<Sent>,
) -> Result<Gone, OutOfMemory>
    ensures messages { OnOk result (map envelope_of messages.new.items ≡ map envelope_of messages.old.items ++
        messages_of out) }
    ensures gone { IfOk result (λ gone. GoesOut rank (suc (length messages.old.items)) out gone) }
{
    let mut gone = Gone {
        sent: Items::new(alloc),
        replies: Replies::new(alloc),
    };
    for one in out.into_vec() {
        send_one(alloc, messages, &mut gone, rank, one)?;
    }
    Ok(gone)
}
