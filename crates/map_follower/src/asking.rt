//! What a client that follows asks.

ghost use Rattle.std.specs.Prelude.{◌≡◌, ◌+◌, ◌%◌, ◌≤◌, ◌^◌, OnOk, OnErr, option_map};
ghost use Rattle.mon_link.specs.Links.{asked_to_send};
ghost use Rattle.mon_link.specs.declared.link.Peer.TheVariants as peer;
ghost use Rattle.mon_wire.specs.Message.Whole.{HasText, text};
ghost use Rattle.map_follower.specs.Iterations.{request_of};
ghost use Rattle.map_follower.specs.Talking.{Sends, SendsOrNot};

use crate::follower::Follower;
use mon_bytes::OutOfMemory;
use mon_link::{Link, Peer};
use mon_msg::{Body, Message};
use mon_types::{Epoch, Rank, Stop};
use std::alloc::Global;

/// The next request after `asks`. Its rank and epoch are 0, as those of every client's.
fn request_of(monitors: u8, asks: u64, follower: &Follower) -> Message
    requires least { 1 ≤ monitors }
    requires most { monitors ≤ 15 }
    requires asks { asks + 1 ≤ 2 ^ 62 }
    ensures value { result ≡ request_of monitors asks follower.now }
    ensures text { HasText result }
{
    Message {
        from: Rank::known(0),
        monitors,
        epoch: Epoch::known(0),
        body: Body::Request {
            id: asks + 1,
            request: follower.ask(),
        },
    }
}

/// Sends a datagram. If the link fails to send it, it is lost.
fn send<L: Link>(link: &mut L, to: Peer, bytes: &[u8]) -> Result<(), OutOfMemory>
    ensures ok { OnOk result ((L.state link.new).observed ≡ option_map (asked_to_send to bytes.now) (L.state link.old).observed) }
    ensures err { OnErr result ((L.state link.new).observed ≡ (L.state link.old).observed) }
    ensures faults { (L.state link.new).faults ≡ (L.state link.old).faults }
    ensures talks { Sends to bytes.now result (L.history link.old) (L.history link.new) }
{
    match link.send(to, bytes) {
        Ok(()) => Ok(()),
        Err(Stop::Failed) => Ok(()),
        Err(Stop::OutOfMemory) => Err(OutOfMemory),
    }
}

/// Sends the next request, to the monitors one after the other. After `OutOfMemory` none was sent.
pub(crate) fn ask<L: Link>(
    alloc: Global,
    monitors: u8,
    asks: &mut u64,
    follower: &Follower,
    link: &mut L,
) -> Result<(), OutOfMemory>
    requires least { 1 ≤ monitors }
    requires most { monitors ≤ 15 }
    requires asks { asks.old + 1 ≤ 2 ^ 62 }
    ensures asks { OnOk result (asks.new ≡ asks.old + 1) }
    ensures ok { OnOk result ((L.state link.new).observed
        ≡ option_map (asked_to_send (peer.Monitor (asks.old % monitors))
        (text (request_of monitors asks.old follower.now))) (L.state link.old).observed) }
    ensures err { OnErr result ((L.state link.new).observed ≡ (L.state link.old).observed) }
    ensures faults { (L.state link.new).faults ≡ (L.state link.old).faults }
    ensures talks { SendsOrNot (peer.Monitor (asks.old % monitors)) (text (request_of monitors asks.old follower.now))
        result (L.history link.old) (L.history link.new) }
{
    let message = request_of(monitors, *asks, follower);
    let encoded = message.encode(alloc);
    drop(message);
    let bytes = encoded?;
    let to = Rank::known((*asks % u64::from(monitors)) as u8);
    send(link, Peer::Monitor(to), bytes.as_slice())?;
    *asks += 1;
    Ok(())
}
