ghost use Rattle.std.specs.Prelude.{IsTrue};
ghost use Rattle.paxos_peon.specs.Rows.{is_input};

use crate::comes::Comes;
use crate::given::{input_is_short, keep, me, number, put_records, store, view};
use crate::site::{Role, Site, all_are};
use election_rules::Rule;
use mon_bytes::Bytes;
use mon_kv::Kv;
use mon_lease::Lease;
use mon_msg::input::Input;
use mon_msg::{Body, Peon, Phase, Plan, RoleStop};
use mon_tx::{Area, Key, Transaction};
use mon_types::{GREATEST, Moment, Rank, RankSet};
use paxos_peon::*;
use std::alloc::Global;
use std::test::Fail;

/// Whether it is an input of a peon.
fn is_input(input: &Input) -> bool
    ensures { IsTrue result → IsTrue (is_input input.now) }
{
    match input {
        Input::Deliver(message) => matches!(
            &message.body,
            Body::Collect { .. } | Body::Begin { .. } | Body::Commit { .. } | Body::Lease { .. }
        ),
        _ => false,
    }
}

impl Role for Peon {
    fn plan(
        alloc: Global,
        site: &Site<Peon>,
        input: &Input,
    ) -> Option<Result<Plan<Peon>, RoleStop>> {
        if !is_input(input) || !input_is_short(&site.me, input) {
            return None;
        }
        let now = Moment::known(7);
        Some(step(
            alloc, &site.kv, &site.me, &site.view, &site.role, input, now,
        ))
    }

    /// Which lease is valid: one that was given at 7, or one that was given at 0.
    fn remembers(&self) -> &'static str {
        if self.lease.standing(Moment::known(5_006)) {
            return "new lease";
        }
        if self.lease.standing(Moment::known(4_999)) {
            return "old lease";
        }
        "no lease"
    }
}

/// Monitor 1 of 3 that follows monitor 0 in epoch 2, with a lease that was given at 0.
fn following(kv: Kv) -> Site<Peon> {
    let leader = Rank::known(0);
    let mut lease = Lease::none();
    lease.extend(Moment::known(0));
    Site {
        me: me(Rank::known(1), 3, Rule::Classic),
        view: view(Phase::Peon, leader, 7),
        epoch: number(2),
        kv,
        role: Peon {
            leader,
            quorum: RankSet::from_bits(7),
            lease,
        },
    }
}

#[test]
fn a_cancelled_lease_is_none(rt: HostRuntime) -> Result<(), Fail> {
    let mut lease = Lease::none();
    lease.extend(Moment::known(0));
    assert!(rt; lease.standing(Moment::known(4_999)));
    lease.cancel();
    assert!(rt; lease == Lease::none() && !lease.standing(Moment::known(0)));
    Ok(())
}

/// A store in epoch 2 that promised 100.
fn promised(alloc: Global) -> Result<Kv, Fail> {
    let numbers = [
        (Area::Monitor, Key::ElectionEpoch, 2),
        (Area::Paxos, Key::AcceptedPn, 100),
    ];
    store(alloc, &numbers)
}

/// The same with the versions 1 to 3, and a value accepted for version 4 under 100.
fn with_records(alloc: Global) -> Result<Kv, Fail> {
    let numbers = [
        (Area::Monitor, Key::ElectionEpoch, 2),
        (Area::Paxos, Key::AcceptedPn, 100),
        (Area::Paxos, Key::FirstCommitted, 1),
        (Area::Paxos, Key::LastCommitted, 3),
        (Area::Paxos, Key::PendingV, 4),
        (Area::Paxos, Key::PendingPn, 100),
    ];
    let mut kv = store(alloc, &numbers)?;
    put_records(alloc, &mut kv, 1, 4)?;
    Ok(kv)
}

#[test]
fn a_value_is_accepted_and_then_learned(rt: HostRuntime) -> Result<(), Fail> {
    let alloc = rt.alloc();
    let accepted = "store 3;send 1 1>0 ACCEPT e=2 pn=100 v=1;no lease";
    let rows = [
        (
            0,
            Comes::Lease(0),
            "send 1 1>0 LEASE_ACK e=2 last=0;new lease",
        ),
        (0, Comes::Begin(99, 1), "new lease"),
        (0, Comes::Begin(100, 2), "new lease"),
        (0, Comes::Begin(100, 1), accepted),
        (0, Comes::Begin(100, 1), accepted),
        (0, Comes::Lease(0), "no lease"),
        (0, Comes::Commit(2, 1), "no lease"),
        (0, Comes::Commit(1, 0), "no lease"),
        (0, Comes::Commit(1, 1), "store 3;no lease"),
        (0, Comes::Commit(1, 1), "no lease"),
        (0, Comes::Begin(100, 1), "no lease"),
        (0, Comes::Commit(0, 3), "store 3;no lease"),
        (0, Comes::Lease(1), "no lease"),
        (
            0,
            Comes::Lease(2),
            "send 1 1>0 LEASE_ACK e=2 last=2;new lease",
        ),
    ];
    let site = following(promised(alloc)?);
    drop(all_are(&rt, alloc, site, &rows)?);
    Ok(())
}

#[test]
fn a_leader_that_collects_is_told(rt: HostRuntime) -> Result<(), Fail> {
    let alloc = rt.alloc();
    let told = "send 1 1>0 LAST e=2 pn=100 first=1 last=3 whole=1 values=0 pending=100;no lease";
    let newer =
        "store 1;send 1 1>0 LAST e=2 pn=201 first=1 last=3 whole=1 values=2 pending=100;no lease";
    let rows = [
        (0, Comes::Collect(201, 5, 9), "bootstrap;old lease"),
        (0, Comes::Collect(201, 5, GREATEST), "bootstrap;old lease"),
        (
            0,
            Comes::Collect(201, 1, GREATEST),
            "Spent { which: Version }",
        ),
        (0, Comes::Collect(100, 1, 3), told),
        (0, Comes::Collect(99, 4, 9), told),
        (0, Comes::Collect(201, 1, 1), newer),
    ];
    let site = following(with_records(alloc)?);
    drop(all_are(&rt, alloc, site, &rows)?);
    Ok(())
}

/// The changes that make the records of versions 2 and 4 empty, and so no transactions.
fn spoils(alloc: Global) -> Result<Transaction, Fail> {
    let mut tx = Transaction::new(alloc);
    tx.put(Area::Paxos, Key::Version(2), Bytes::new(Vec::new(alloc)))?;
    tx.put(Area::Paxos, Key::Version(4), Bytes::new(Vec::new(alloc)))?;
    Ok(tx)
}

/// The same with two records that aren't transactions.
fn with_spoiled_records(alloc: Global) -> Result<Kv, Fail> {
    let mut kv = with_records(alloc)?;
    keep(&mut kv, spoils(alloc)?)?;
    Ok(kv)
}

#[test]
fn what_is_no_transaction_is_left_out(rt: HostRuntime) -> Result<(), Fail> {
    let alloc = rt.alloc();
    let cut = "send 1 1>0 LAST e=2 pn=100 first=1 last=3 whole=0 values=1 pending=0;no lease";
    let whole = "send 1 1>0 LAST e=2 pn=100 first=1 last=3 whole=1 values=1 pending=0;no lease";
    let rows = [
        (0, Comes::Collect(100, 1, 0), cut),
        (0, Comes::Collect(100, 1, 2), whole),
        (
            0,
            Comes::Lease(3),
            "send 1 1>0 LEASE_ACK e=2 last=3;new lease",
        ),
    ];
    let site = following(with_spoiled_records(alloc)?);
    drop(all_are(&rt, alloc, site, &rows)?);
    Ok(())
}
