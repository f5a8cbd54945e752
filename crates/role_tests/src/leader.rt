ghost use Rattle.std.specs.Prelude.{◌≡◌, ◌<◌, true};
ghost use Rattle.mon_msg.specs.Protocol.Records.{may_begin};
ghost use Rattle.paxos_leader.specs.Inputs.{is_input, may_begin_all};

use crate::comes::Comes;
use crate::given::{input_is_short, me, number, store, value, view};
use crate::site::{Role, Site, all_are, begun, done};
use election_rules::Rule;
use mon_kv::Kv;
use mon_msg::input::Input;
use mon_msg::{Body, Leader, LeaderStage, Origin, Phase, Plan, RoleStop, Session, View};
use mon_tx::{Area, Key, Transaction};
use mon_types::{Moment, Rank, RankSet};
use paxos_leader::*;
use std::alloc::Global;
use std::process::Abort;
use std::test::Fail;

/// Whether it is an input of a leader that a test gives.
fn is_input(input: &Input) -> bool
    ensures { result ≡ true → is_input input.now ≡ true }
{
    match input {
        Input::Deliver(message) => matches!(&message.body, Body::Last { .. } | Body::Accept { .. }),
        _ => false,
    }
}

/// Whether a BEGIN with the value may be sent.
fn may_begin(value: &Transaction) -> bool
    ensures { result ≡ true → may_begin value.now ≡ true }
{
    value.text_len() <= 1_000_000
}

/// Whether a BEGIN with the value that a leader remembers may be sent. No leader of these tests has found one.
fn may_begin_all(state: &Leader) -> bool
    ensures { result ≡ true → may_begin_all state.now ≡ true }
{
    if state.found.is_some() {
        return false;
    }
    match &state.value {
        None => true,
        Some(value) => may_begin(value),
    }
}

impl Role for Leader {
    fn plan(
        alloc: Global,
        site: &Site<Leader>,
        input: &Input,
    ) -> Option<Result<Plan<Leader>, RoleStop>> {
        if !is_input(input) || !input_is_short(&site.me, input) || !may_begin_all(&site.role) {
            return None;
        }
        let phase = match site.role.stage {
            LeaderStage::Collecting => Phase::Collecting,
            LeaderStage::Previous => Phase::Previous,
            LeaderStage::Active => Phase::Active,
            LeaderStage::Updating => Phase::Updating,
        };
        let view = View { phase, ..site.view };
        let now = Moment::known(7);
        Some(step(alloc, &site.kv, &site.me, &view, &site.role, input, now))
    }

    fn remembers(&self) -> &'static str {
        match self.stage {
            LeaderStage::Collecting => "collecting",
            LeaderStage::Previous => "previous",
            LeaderStage::Active => "active",
            LeaderStage::Updating => "updating",
        }
    }
}

/// Monitor 0 of 3, which has won epoch 2 with all of them and does what `wanted` says.
fn won(rt: &impl Abort, alloc: Global, kv: Kv, wanted: &str) -> Result<Site<Leader>, Fail> {
    let own = Rank::known(0);
    let me = me(own, 3, Rule::Classic);
    let epoch = number(2);
    let plan = enter(
        alloc,
        &kv,
        &me,
        epoch,
        RankSet::from_bits(7),
        Moment::known(0),
    )?;
    let view = view(Phase::Collecting, own, 7);
    begun(rt, alloc, &me, view, epoch, kv, plan, wanted)
}

fn planned(
    alloc: Global,
    site: &Site<Leader>,
    value: &Transaction,
) -> Option<Result<Plan<Leader>, RoleStop>> {
    if !may_begin(value) {
        return None;
    }
    let origin = Origin::Session(Session { client: 1, id: 1 });
    let now = Moment::known(7);
    Some(begin(alloc, &site.kv, &site.me, &site.role, value, &origin, now))
}

/// Begins the value of a client's command, and checks the plan against `wanted`.
fn command(
    rt: &impl Abort,
    alloc: Global,
    site: Site<Leader>,
    wanted: &str,
) -> Result<Site<Leader>, Fail> {
    let value = value(alloc, 1)?;
    let planned = planned(alloc, &site, &value);
    drop(value);
    match planned {
        Some(Ok(plan)) => done(rt, alloc, site, plan, wanted),
        Some(Err(stop)) => {
            drop(site);
            Err(stop.into())
        }
        None => {
            drop(site);
            Err("a plan".into())
        }
    }
}

const WON: &str = "store 2;send 1 0>1 VICTORY e=2 quorum=0,1,2;send 1 0>2 VICTORY e=2 quorum=0,1,2;\
    send 1 0>1 COLLECT e=2 pn=100 first=0 last=0;send 1 0>2 COLLECT e=2 pn=100 first=0 last=0;collecting";

const OUTBIDS: &str = "store 2;send 1 0>1 COLLECT e=2 pn=400 first=0 last=0;\
    send 1 0>2 COLLECT e=2 pn=400 first=0 last=0;collecting";

const LEASES: &str = "send 1 0>1 LEASE e=2 last=0;send 1 0>2 LEASE e=2 last=0;active";

const BEGINS: &str =
    "store 3;send 1 0>1 BEGIN e=2 pn=400 v=1;send 1 0>2 BEGIN e=2 pn=400 v=1;updating";

const COMMITS: &str = "store 3;send 1 0>1 COMMIT e=2 v=1..1;send 1 0>2 COMMIT e=2 v=1..1;\
    send 1 0>1 LEASE e=2 last=1;send 1 0>2 LEASE e=2 last=1;reply 0 1.1 done 1;active";

#[test]
fn a_value_needs_each_member_once(rt: HostRuntime) -> Result<(), Fail> {
    let alloc = rt.alloc();
    let collected = [
        (1, Comes::Last(301, 0), OUTBIDS),
        (1, Comes::Last(100, 0), "collecting"),
        (1, Comes::Last(400, 0), "collecting"),
        (1, Comes::Last(400, 0), "collecting"),
        (2, Comes::Last(400, 0), LEASES),
    ];
    let accepted = [
        (1, Comes::Accept(400, 1), "updating"),
        (1, Comes::Accept(400, 1), "updating"),
        (2, Comes::Accept(100, 1), "updating"),
        (2, Comes::Accept(400, 2), "updating"),
        (2, Comes::Accept(400, 1), COMMITS),
        (2, Comes::Accept(400, 1), "active"),
    ];
    let kv = store(alloc, &[(Area::Monitor, Key::ElectionEpoch, 2)])?;
    let site = won(&rt, alloc, kv, WON)?;
    let site = all_are(&rt, alloc, site, &collected)?;
    let site = command(&rt, alloc, site, BEGINS)?;
    drop(all_are(&rt, alloc, site, &accepted)?);
    Ok(())
}
