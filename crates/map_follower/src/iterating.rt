//! The iterations of a client that follows.

ghost use Rattle.std.specs.Prelude.{◌≡◌, ℕ, ◌+◌, ◌≤◌, ◌^◌, Err, List, OnOk, Option, Result};
ghost use Rattle.mon_frag.specs.declared.partial.Partial.{Partial};
ghost use Rattle.mon_link.specs.Links.{Observed};
ghost use Rattle.mon_link.specs.declared.link.Got.{Got as gots};
ghost use Rattle.mon_types.specs.Faults.{Rose};
ghost use Rattle.mon_types.specs.declared.names.Stop.{Stop as stops};
ghost use Rattle.map_follower.specs.Talking.{Asks, TalkIteration};
ghost use Rattle.map_follower.specs.Iterations.{IsAnswer, Does, asked, course, faults_by, goes_on, turned, with_datagram};

use crate::asking::ask;
use crate::end::FollowEnd;
use crate::follower::Follower;
use crate::hearing::{hear, take};
use mon_frag::Assembly;
use mon_link::{Got, Link, Peer, Sink};
use mon_types::Stop;
use std::alloc::Global;

/// The longest wait of the link, in milliseconds.
const WAIT: u64 = 1000;

/// Takes the reply that a datagram completes, if any, and writes the copy if it is newer.
fn take_datagram<K: Sink>(
    alloc: Global,
    follower: &mut Follower,
    monitors: u8,
    assembly: &mut Assembly,
    sink: &mut K,
    from: &Peer,
    datagram: &[u8],
) -> Result<(), FollowEnd>
    ensures does { (asks : ℕ) (link : Option Observed) →
        Does result (course follower.old assembly.old asks link (K.held sink.old))
        (goes_on (with_datagram monitors from.now datagram.now (course follower.old assembly.old asks link (K.held sink.old))))
        (course follower.new assembly.new asks link (K.held sink.new)) }
    ensures later { K.faults sink.old ≤ K.faults sink.new }
    ensures fault { result ≡ Err FollowEnd.WriteFault → Rose (K.faults sink.old) (K.faults sink.new) }
    ensures faults { (faults : ℕ) → faults_by result faults ≡ faults }
{
    match hear(alloc, monitors, assembly, from, datagram)? {
        Some(reply) => {
            let done = take(alloc, follower, sink, &reply);
            drop(reply);
            done
        }
        None => Ok(()),
    }
}

/// Sends a request. The same as `ask`, with its effect stated on the state of an iteration.
pub(crate) fn ask_on<L: Link>(
    alloc: Global,
    monitors: u8,
    asks: &mut u64,
    follower: &Follower,
    link: &mut L,
) -> Result<(), FollowEnd>
    requires least { 1 ≤ monitors }
    requires most { monitors ≤ 15 }
    requires asks { asks.old + 1 ≤ 2 ^ 62 }
    ensures does { (parts : List Partial) (written : Option (List ℕ)) →
        Does result (course follower.now parts asks.old (L.state link.old).observed written)
        (goes_on (asked monitors (course follower.now parts asks.old (L.state link.old).observed written)))
        (course follower.now parts asks.new (L.state link.new).observed written) }
    ensures talks { (parts : List Partial) (written : Option (List ℕ)) →
        Asks monitors (course follower.now parts asks.old (L.state link.old).observed written) result
        (L.history link.old) (L.history link.new) }
    ensures asks { OnOk result (asks.new ≡ asks.old + 1) }
    ensures faults { (L.state link.new).faults ≡ faults_by result (L.state link.old).faults }
    ensures never { result ≡ Err FollowEnd.WriteFault → ⊥ }
{
    ask(alloc, monitors, asks, follower, link)?;
    Ok(())
}

/// Makes one iteration: waits for the link once, and takes a datagram, or sends the next request if none came.
pub(crate) fn iteration<L: Link, K: Sink>(
    alloc: Global,
    follower: &mut Follower,
    monitors: u8,
    assembly: &mut Assembly,
    asks: &mut u64,
    link: &mut L,
    sink: &mut K,
) -> Result<(), FollowEnd>
    requires least { 1 ≤ monitors }
    requires most { monitors ≤ 15 }
    requires asks { asks.old + 1 ≤ 2 ^ 62 }
    ensures turned { let old = course follower.old assembly.old asks.old (L.state link.old).observed
        (K.held sink.old) in
        (g : Result gots stops) × IsAnswer old.link g × Does result old (turned monitors g old)
        (course follower.new assembly.new asks.new (L.state link.new).observed (K.held sink.new))
        × TalkIteration monitors old g result (L.history link.old) (L.history link.new) }
    ensures asks { OnOk result (asks.new ≤ asks.old + 1) }
    ensures faults { (L.state link.new).faults ≡ faults_by result (L.state link.old).faults }
    ensures later { K.faults sink.old ≤ K.faults sink.new }
    ensures fault { result ≡ Err FollowEnd.WriteFault → Rose (K.faults sink.old) (K.faults sink.new) }
{
    match link.next(WAIT) {
        Ok(Got::Datagram { from, bytes }) => {
            let done = take_datagram(
                alloc,
                follower,
                monitors,
                assembly,
                sink,
                &from,
                bytes.as_slice(),
            );
            drop(bytes);
            done
        }
        Ok(Got::Idle) => ask_on(alloc, monitors, asks, follower, link),
        Ok(Got::Closed) => Err(FollowEnd::Closed),
        Err(Stop::Failed) => Err(FollowEnd::LinkFault),
        Err(Stop::OutOfMemory) => Err(FollowEnd::OutOfMemory),
    }
}
