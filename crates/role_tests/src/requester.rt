ghost use Rattle.std.specs.Prelude.{IsTrue};
ghost use Rattle.sync_requester.specs.Inputs.{is_input};

use crate::comes::Comes;
use crate::given::{input_is_short, me, number, put_records, store, view};
use crate::probe::probing;
use crate::site::{Role, Site, all_are, begun};
use election_rules::Rule;
use mon_kv::Kv;
use mon_msg::input::Input;
use mon_msg::{Body, Phase, Plan, Requester, RoleStop, SyncStage, Timer};
use mon_tx::{Area, Key};
use mon_types::{Moment, Rank};
use std::alloc::Global;
use std::process::Abort;
use std::test::Fail;
use sync_requester::*;

/// Whether it is an input of a requester that a test gives.
fn is_input(input: &Input) -> bool
    ensures { IsTrue result → IsTrue (is_input input.now) }
{
    match input {
        Input::Deliver(message) => matches!(
            &message.body,
            Body::Cookie { .. } | Body::Chunk { .. } | Body::LastChunk { .. }
        ),
        Input::Timer(Timer::Step) => true,
        _ => false,
    }
}

impl Role for Requester {
    fn plan(
        alloc: Global,
        site: &Site<Requester>,
        input: &Input,
    ) -> Option<Result<Plan<Requester>, RoleStop>> {
        if !is_input(input) || !input_is_short(&site.me, input) {
            return None;
        }
        let now = Moment::known(7);
        Some(step(
            alloc, &site.kv, &site.me, &site.view, &site.role, input, now,
        ))
    }

    fn remembers(&self) -> &'static str {
        match self.stage {
            SyncStage::Cookie => "cookie",
            SyncStage::Chunks => "chunks",
            SyncStage::Replay { .. } => "replay",
        }
    }
}

/// Monitor 1 of 3 in epoch 7 that begins to take a whole copy from monitor 0, once it has asked for it.
fn entered(rt: &impl Abort, alloc: Global, kv: Kv) -> Result<Site<Requester>, Fail> {
    let own = Rank::known(1);
    let me = me(own, 3, Rule::Classic);
    let epoch = number(7);
    let plan = enter(
        alloc,
        &kv,
        &me,
        epoch,
        Rank::known(0),
        true,
        Moment::known(7),
    )?;
    begun(
        rt,
        alloc,
        &me,
        view(Phase::Synchronizing, own, 0),
        epoch,
        kv,
        plan,
        ASKS,
    )
}

/// What a requester does first if it takes a whole copy, as a trace reports it.
const ASKS: &str = "store 7;send 1 1>0 GET_COOKIE_FULL e=7;cookie";

/// A store in epoch 7 with the versions 1 to 4, and version 5 accepted under 302.
fn accepted(alloc: Global) -> Result<Kv, Fail> {
    let numbers = [
        (Area::Monitor, Key::ElectionEpoch, 7),
        (Area::Paxos, Key::LastPn, 101),
        (Area::Paxos, Key::AcceptedPn, 302),
        (Area::Paxos, Key::FirstCommitted, 1),
        (Area::Paxos, Key::LastCommitted, 4),
        (Area::Paxos, Key::PendingV, 5),
        (Area::Paxos, Key::PendingPn, 302),
    ];
    let mut kv = store(alloc, &numbers)?;
    put_records(alloc, &mut kv, 1, 5)?;
    Ok(kv)
}

/// Whether the two keys of a mark are there, and `kv/5` and `kv/10`.
fn keys(kv: &Kv) -> [bool; 4] {
    [
        kv.get(b"mon_sync", b"in_sync").is_some(),
        kv.get(b"mon_sync", b"last_committed_floor").is_some(),
        kv.get(b"kv", b"5").is_some(),
        kv.get(b"kv", b"10").is_some(),
    ]
}

/// A whole copy of 12 versions, up to its first chunk; one that would end below the floor is refused.
fn half(rt: &impl Abort, alloc: Global, kv: Kv) -> Result<Site<Requester>, Fail> {
    let starts = "send 1 1>0 GET_CHUNK e=7 cookie=1.1 at=12 key=start;chunks";
    let goes_on = "store 2;send 1 1>0 GET_CHUNK e=7 cookie=1.1 at=12 key=kv/7;chunks";
    let rows = [
        (0, Comes::Cookie(true, 4), "cookie"),
        (0, Comes::Cookie(true, 12), starts),
        (0, Comes::Chunk, goes_on),
    ];
    let site = entered(rt, alloc, kv)?;
    all_are(rt, alloc, site, &rows)
}

#[test]
fn a_copy_that_was_stopped_begins_again(rt: HostRuntime) -> Result<(), Fail> {
    let alloc = rt.alloc();
    let site = half(&rt, alloc, accepted(alloc)?)?;
    let there = keys(&site.kv);
    let site = probing(stored_by(site));
    let rows = [
        (0, Comes::ProbeReply(0, 1, 4), "alone"),
        (0, Comes::ProbeReply(0, 1, 5), "full;alone"),
        (0, Comes::ProbeReply(0, 6, 9), "full;alone"),
    ];
    drop(all_are(&rt, alloc, site, &rows)?);
    assert!(rt; there == [true, true, true, false]);
    Ok(())
}

/// The store of a requester that stops.
fn stored_by(site: Site<Requester>) -> Kv {
    let Site { kv, role, .. } = site;
    drop(role);
    kv
}

/// Takes a copy to its end. Returns which keys its store then has, and the epoch, the promise and the last version.
fn ended(
    rt: &impl Abort,
    alloc: Global,
    site: Site<Requester>,
) -> Result<([bool; 4], u64, u64, u64), Fail> {
    let rows = [
        (0, Comes::LastChunk, "store 2;replay"),
        // it comes again
        (0, Comes::LastChunk, "replay"),
        // two records and what they do, the last version, and the two keys of the mark
        (0, Comes::Rings(Timer::Step), "store 7;bootstrap;replay"),
    ];
    let kv = stored_by(all_are(rt, alloc, site, &rows)?);
    let told = (keys(&kv), kv.epoch(), kv.promise(), kv.last_committed());
    drop(kv);
    Ok(told)
}

#[test]
fn what_changed_before_a_chunk_is_caught_up(rt: HostRuntime) -> Result<(), Fail> {
    let alloc = rt.alloc();
    let stopped = stored_by(half(&rt, alloc, accepted(alloc)?)?);
    let site = half(&rt, alloc, stopped)?;
    let found = ended(&rt, alloc, site)?;
    assert!(rt; found == ([false, false, false, true], 7, 302, 14));
    Ok(())
}
