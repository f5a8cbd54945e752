ghost use Rattle.std.specs.Prelude.{IsTrue};
ghost use Rattle.mon_probe.specs.Rows.{is_input};

use crate::comes::Comes;
use crate::given::{me, number, store, view};
use crate::site::{Role, Site, all_are};
use election_rules::Rule;
use mon_kv::Kv;
use mon_msg::input::Input;
use mon_msg::{Body, Phase, Plan, Prober, RoleStop};
use mon_probe::*;
use mon_tx::{Area, Key};
use mon_types::{Moment, Rank, RankSet};
use std::alloc::Global;
use std::test::Fail;

/// Whether it is an input of a prober that a test gives.
fn is_input(input: &Input) -> bool
    ensures { IsTrue result → IsTrue (is_input input.now) }
{
    match input {
        Input::Deliver(message) => matches!(&message.body, Body::Probe | Body::ProbeReply { .. }),
        _ => false,
    }
}

impl Role for Prober {
    fn plan(
        alloc: Global,
        site: &Site<Prober>,
        input: &Input,
    ) -> Option<Result<Plan<Prober>, RoleStop>> {
        if !is_input(input) {
            return None;
        }
        let now = Moment::known(7);
        Some(step(
            alloc, &site.kv, &site.me, &site.view, &site.role, input, now,
        ))
    }

    /// Reports whether the monitor knows of another one outside a quorum.
    fn remembers(&self) -> &'static str {
        if self.outside.to_bits() == 2 {
            "alone"
        } else {
            "not alone"
        }
    }
}

/// A store with the versions from 1 to `last`.
fn stored(alloc: Global, last: u64) -> Result<Kv, Fail> {
    let numbers = [
        (Area::Paxos, Key::FirstCommitted, 1),
        (Area::Paxos, Key::LastCommitted, last),
    ];
    store(alloc, &numbers)
}

/// Monitor 1 of 5 that probes, and knows of itself alone.
pub(crate) fn probing(kv: Kv) -> Site<Prober> {
    let own = Rank::known(1);
    Site {
        me: me(own, 5, Rule::Classic),
        view: view(Phase::Probing, own, 0),
        epoch: number(1),
        kv,
        role: Prober {
            outside: RankSet::from_bits(2),
        },
    }
}

#[test]
fn a_monitor_copies_what_it_lacks(rt: HostRuntime) -> Result<(), Fail> {
    let alloc = rt.alloc();
    let told = "send 1 1>0 PROBE_REPLY e=1 quorum=- first=1 last=5;alone";
    let rows = [
        (0, Comes::Probe, told),
        (0, Comes::ProbeReply(0, 1, 16), "recent;alone"),
        (0, Comes::ProbeReply(0, 6, 7), "full;alone"),
        (0, Comes::ProbeReply(28, 1, 15), "elect;alone"),
        (0, Comes::ProbeReply(0, 1, 15), "not alone"),
    ];
    drop(all_are(&rt, alloc, probing(stored(alloc, 5)?), &rows)?);
    let rows = [(0, Comes::ProbeReply(0, 4, 12), "full;alone")];
    drop(all_are(&rt, alloc, probing(stored(alloc, 2)?), &rows)?);
    Ok(())
}
