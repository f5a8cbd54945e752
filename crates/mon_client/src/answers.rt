//! A plan that only answers, and how long a command's value or text may be.

ghost use Rattle.std.specs.Prelude.{◌≡◌, ◌<◌, [], ◌∷◌, IfOk};
ghost use Rattle.mon_msg.specs.Protocol.Commands.{most_text, text_length, is_too_long, too_long};
ghost use Rattle.mon_msg.specs.declared.plan.Next.TheVariants as next;

use map_kv::MOST_KV_VALUE;
use map_log::MOST_TEXT;
use mon_bytes::{Command, OutOfMemory};
use mon_msg::plan::Sent;
use mon_msg::{Clients, Plan, Reply};
use mon_plan::{one, sending};
use std::alloc::Global;

/// The plan that sends one message or reply, and does nothing else.
pub(crate) fn answered(
    alloc: Global,
    clients: Clients,
    sent: Sent,
) -> Result<Plan<Clients>, OutOfMemory>
    ensures { IfOk result
        (λ plan. plan ≡ record { tx = []; out = sent ∷ []; timers = []; state = clients; next = next.Stay }) }
{
    let out = one(alloc, sent)?;
    Ok(sending(alloc, out, clients))
}

/// How many bytes a command's value or text may have.
fn most_text(command: &Command) -> u64
    ensures { result ≡ most_text command.now }
{
    match command {
        Command::Set { .. } => MOST_KV_VALUE,
        Command::Remove { .. } => 0,
        Command::Log { .. } => MOST_TEXT,
    }
}

/// How many bytes a command's value or text has.
fn text_length(command: &Command) -> u64
    ensures { result ≡ text_length command.now }
{
    match command {
        Command::Set { value, .. } => value.as_slice().len() as u64,
        Command::Remove { .. } => 0,
        Command::Log { text } => text.as_slice().len() as u64,
    }
}

/// Whether a command's value or text is longer than it may be.
pub(crate) fn is_too_long(command: &Command) -> bool
    ensures { result ≡ is_too_long command.now }
{
    text_length(command) > most_text(command)
}

/// The reply to a command whose value or text is too long.
pub(crate) fn too_long(command: &Command) -> Reply
    ensures { result ≡ too_long command.now }
{
    Reply::TooLong {
        len: text_length(command),
        most: most_text(command),
    }
}
