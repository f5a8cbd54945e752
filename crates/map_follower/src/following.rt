ghost use Rattle.std.specs.Prelude.{◌≡◌, ℕ, ◌≤◌, ◌^◌, List, []};
ghost use Rattle.mon_frag.specs.declared.partial.Partial.{Partial};
ghost use Rattle.mon_types.specs.Faults.{Rose};
ghost use Rattle.map_follower.specs.Iterations.{Follows, course, faults_at};
ghost use Rattle.map_follower.specs.Talking.{Talks};

use crate::end::FollowEnd;
use crate::follower::Follower;
use crate::iterating::{ask_on, iteration};
use mon_frag::Assembly;
use mon_link::{Link, Sink};
use std::alloc::Global;

/// Follows a service over a link to `monitors` monitors, for at most `turns` iterations. It sends a request at first
/// and after each iteration in which nothing came, to the monitors one after the other, and writes the line `SERVICE
/// version=VERSION MAP` whenever the copy is newer. An iteration waits for one second at most.
///
/// Returns `Closed` if and only if the link reported it, and `TurnsUsed` if and only if `turns` iterations were made.
/// Returns `LinkFault` or `WriteFault` only if the link or the sink counted a fault.
pub fn follow<L: Link, K: Sink>(
    alloc: Global,
    follower: &mut Follower,
    monitors: u8,
    link: &mut L,
    sink: &mut K,
    turns: u64,
) -> FollowEnd
    requires least { 1 ≤ monitors }
    requires most { monitors ≤ 15 }
    requires turns { turns ≤ 2 ^ 61 }
    ensures follows { let old = course follower.old [] 0 (L.state link.old).observed (K.held sink.old) in
        (asks : ℕ) × (parts : List Partial) × (F : Follows monitors turns old
        (course follower.new parts asks (L.state link.new).observed (K.held sink.new)) result)
        × Talks monitors old result F.given (L.history link.old) (L.history link.new) }
    ensures faults { (L.state link.new).faults ≡ faults_at result (L.state link.old).faults }
    ensures later { K.faults sink.old ≤ K.faults sink.new }
    ensures fault { result ≡ FollowEnd.WriteFault → Rose (K.faults sink.old) (K.faults sink.new) }
{
    let mut assembly = Assembly::new(alloc);
    let mut asks: u64 = 0;
    if let Err(end) = ask_on(alloc, monitors, &mut asks, follower, link) {
        return end;
    }
    for made in 0..turns {
        if let Err(end) = iteration(
            alloc,
            follower,
            monitors,
            &mut assembly,
            &mut asks,
            link,
            sink,
        ) {
            return end;
        }
    }
    FollowEnd::TurnsUsed
}
