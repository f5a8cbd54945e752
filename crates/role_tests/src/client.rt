ghost use Rattle.std.specs.Prelude.{IsTrue};
ghost use Rattle.mon_client.specs.Rows.{is_input};

use crate::comes::Comes;
use crate::given::{input_is_short, me, number, view};
use crate::site::{Role, Site, all_are};
use election_rules::Rule;
use mon_bytes::Items;
use mon_client::*;
use mon_kv::Kv;
use mon_msg::input::Input;
use mon_msg::{Body, Clients, Phase, Plan, Request, RoleStop};
use mon_types::{Moment, Rank};
use std::alloc::Global;
use std::test::Fail;

/// Whether it is an input of clients' commands, of those that a test gives.
fn is_input(input: &Input) -> bool
    ensures { IsTrue result → IsTrue (is_input input.now) }
{
    match input {
        Input::Deliver(message) => {
            matches!(&message.body, Body::Forward { .. } | Body::Route { .. })
        }
        Input::Client(_, Request::Log { .. }) => true,
        _ => false,
    }
}

impl Role for Clients {
    fn plan(
        alloc: Global,
        site: &Site<Clients>,
        input: &Input,
    ) -> Option<Result<Plan<Clients>, RoleStop>> {
        if !is_input(input) || !input_is_short(&site.me, input) {
            return None;
        }
        let now = Moment::known(7);
        Some(step(
            alloc, &site.kv, &site.me, &site.view, &site.role, input, now,
        ))
    }

    fn remembers(&self) -> &'static str {
        ""
    }
}

/// Monitor 0 of 3 in epoch 1, in a quorum of all that monitor `leader` leads.
fn serving(alloc: Global, phase: Phase, leader: Rank) -> Site<Clients> {
    Site {
        me: me(Rank::known(0), 3, Rule::Classic),
        view: view(phase, leader, 7),
        epoch: number(1),
        kv: Kv::empty(alloc),
        role: Clients {
            queue: Items::new(alloc),
            sessions: Items::new(alloc),
            next_seq: 1,
            taken: [0; 15],
        },
    }
}

#[test]
fn what_comes_twice_counts_once(rt: HostRuntime) -> Result<(), Fail> {
    let alloc = rt.alloc();
    let too_long = "reply 0 5.6 toolong len=1025 most=1024;";
    let at_the_leader = [
        (0, Comes::Logs(1_025), too_long),
        (0, Comes::Logs(1), "begin;"),
        (1, Comes::Forward(1), "begin;"),
        (1, Comes::Forward(1), ""),
    ];
    let leads = serving(alloc, Phase::Active, Rank::known(0));
    drop(all_are(&rt, alloc, leads, &at_the_leader)?);
    let at_a_peon = [
        (0, Comes::Logs(1_025), too_long),
        (0, Comes::Logs(1), "send 1 0>1 FORWARD e=1 seq=1;"),
        (1, Comes::Route(2), ""),
        (1, Comes::Route(1), "reply 0 5.6 done 1;"),
        (1, Comes::Route(1), ""),
    ];
    let follows = serving(alloc, Phase::Peon, Rank::known(1));
    drop(all_are(&rt, alloc, follows, &at_a_peon)?);
    Ok(())
}
