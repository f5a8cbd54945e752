ghost use Rattle.std.specs.Prelude.{IsTrue};
ghost use Rattle.sync_provider.specs.Rows.{is_input};

use crate::comes::Comes;
use crate::given::{me, number, put_records, store, view};
use crate::site::{Role, Site, all_are};
use election_rules::Rule;
use mon_kv::Kv;
use mon_msg::input::Input;
use mon_msg::{Body, Phase, Plan, Provider, RoleStop};
use mon_tx::{Area, Key};
use mon_types::{Moment, Rank};
use std::alloc::Global;
use std::test::Fail;
use sync_provider::*;

/// Whether it is an input of a provider that a test gives.
fn is_input(input: &Input) -> bool
    ensures { IsTrue result → IsTrue (is_input input.now) }
{
    match input {
        Input::Deliver(message) => matches!(
            &message.body,
            Body::GetCookieFull | Body::GetCookieRecent { .. }
        ),
        _ => false,
    }
}

impl Role for Provider {
    fn plan(
        alloc: Global,
        site: &Site<Provider>,
        input: &Input,
    ) -> Option<Result<Plan<Provider>, RoleStop>> {
        if !is_input(input) {
            return None;
        }
        let now = Moment::known(7);
        Some(step(
            alloc, &site.kv, &site.me, &site.view, &site.role, input, now,
        ))
    }

    fn remembers(&self) -> &'static str {
        ""
    }
}

/// The store of a monitor in its first start, with the versions 4 to 12. No run of a quorum gives up versions one by one.
fn stored(alloc: Global) -> Result<Kv, Fail> {
    let numbers = [
        (Area::Monitor, Key::BootCount, 1),
        (Area::Paxos, Key::FirstCommitted, 4),
        (Area::Paxos, Key::LastCommitted, 12),
    ];
    let mut kv = store(alloc, &numbers)?;
    put_records(alloc, &mut kv, 4, 12)?;
    Ok(kv)
}

/// Monitor 0 of 3, which gave no cookie since it started.
fn providing(kv: Kv) -> Site<Provider> {
    let own = Rank::known(0);
    Site {
        me: me(own, 3, Rule::Classic),
        view: view(Phase::Probing, own, 0),
        epoch: number(1),
        kv,
        role: Provider {
            cookies: [None; 15],
            next_cookie: 1,
        },
    }
}

/// The report of a provider that gives monitor 2 no cookie.
const REFUSED: &str = "send 1 0>2 NO_COOKIE e=1 cookie=0.0;";

#[test]
fn what_is_not_kept_any_more_is_refused(rt: HostRuntime) -> Result<(), Fail> {
    let alloc = rt.alloc();
    let whole = "send 1 0>2 COOKIE e=1 full=1 cookie=1.1 last=12;";
    let rows = [
        (2, Comes::GetCookieRecent(2), REFUSED),
        (2, Comes::GetCookieFull, whole),
    ];
    drop(all_are(&rt, alloc, providing(stored(alloc)?), &rows)?);
    Ok(())
}
