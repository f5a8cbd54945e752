//! What bytes from a peer are to a monitor.

ghost use Rattle.std.specs.Prelude.{◌≡◌, IfOk, IfSome};
ghost use Rattle.mon_bounds.specs.Fitting.{IsValidInput};
ghost use Rattle.mon_wire.specs.Message.Whole.{HasText, message_of};
ghost use Rattle.mon_node.specs.Hearing.{is_request, from_client, from_monitor, input_of, input_read};

use mon_bounds::law_message_fits;
use mon_bytes::OutOfMemory;
use mon_core::Input;
use mon_decode::{MsgRefused, decode};
use mon_link::Peer;
use mon_msg::{Body, Message, Session};
use mon_types::Rank;
use std::alloc::Global;

fn is_request(body: &Body) -> bool
    ensures { result ≡ is_request body.now }
{
    matches!(body, Body::Request { .. })
}

/// The input of a client's message: a request. Any other message of a client is dropped.
fn from_client(client: u32, message: Message) -> Option<Input>
    requires { HasText message }
    ensures input { result ≡ from_client client message.body }
    ensures comes { IfSome result IsValidInput }
{
    match message.body {
        Body::Request { id, request } => Some(Input::Client(Session { client, id }, request)),
        other => {
            drop(other);
            None
        }
    }
}

/// The input of a monitor's message. One that names another sender, or is a client's request, is dropped.
fn from_monitor(rank: Rank, message: Message) -> Option<Input>
    requires { HasText message }
    ensures input { result ≡ from_monitor rank message }
    ensures comes { IfSome result IsValidInput }
{
    law_message_fits();
    if message.from == rank && !is_request(&message.body) {
        Some(Input::Deliver(message))
    } else {
        drop(message);
        None
    }
}

/// The input of a peer's message. One that names another number of monitors than `monitors` is dropped.
fn input_of(monitors: u8, from: &Peer, message: Message) -> Option<Input>
    requires { HasText message }
    ensures input { result ≡ input_of monitors from.now message }
    ensures comes { IfSome result IsValidInput }
{
    if message.monitors != monitors {
        drop(message);
        return None;
    }
    match from {
        Peer::Monitor(rank) => from_monitor(*rank, message),
        Peer::Client(client) => from_client(*client, message),
    }
}

/// The input of the bytes of a peer's message. It is `None` if they encode no message, or one that is dropped.
pub(crate) fn read(
    alloc: Global,
    monitors: u8,
    from: &Peer,
    bytes: &[u8],
) -> Result<Option<Input>, OutOfMemory>
    ensures input { IfOk result (λ came. came ≡ input_read monitors from.now (message_of bytes.now)) }
    ensures comes { IfOk result (λ came. IfSome came IsValidInput) }
{
    match decode(alloc, bytes) {
        Ok(message) => Ok(input_of(monitors, from, message)),
        Err(MsgRefused::At { .. }) => Ok(None),
        Err(MsgRefused::OutOfMemory) => Err(OutOfMemory),
    }
}
