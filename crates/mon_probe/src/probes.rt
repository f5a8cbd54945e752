//! What a monitor that probes asks the others, and what they answer.

ghost use Rattle.std.specs.Prelude.{◌≡◌, ℕ, Ok, IfOk};
ghost use Rattle.mon_msg.specs.Protocol.Probing.{hear_probe, hear_probe_reply};
ghost use Rattle.mon_plan.specs.Leaves.{Leaves};
ghost use Rattle.mon_probe.specs.Rows.{ByRow};

use crate::here::Here;
use crate::seen::{is_cut_off, is_probing, is_quorum, lags, reaches_floor};
use mon_msg::{Body, Next, Plan, Prober, RoleStop};
use mon_plan::{message, one, planned, sending, stay};
use mon_types::{Rank, RankSet, Version};

/// Another monitor asks which versions this one keeps, and in which quorum it is. A marked monitor doesn't answer.
pub(crate) fn hear_probe(here: &Here<'_>, from: Rank) -> Result<Plan<Prober>, RoleStop>
    ensures plans { (now : ℕ) → ByRow here.now now (hear_probe here.now.me.now from) result }
    ensures leaves { IfOk result (λ p. Leaves here.now.view.now.phase p.next p.tx) }
{
    if here.stored.is_marked() {
        return Ok(stay(here.alloc, *here.state));
    }
    let body = Body::ProbeReply {
        quorum: here.view.quorum,
        first: here.stored.first(),
        last: here.stored.last(),
    };
    let sent = message(here.me, here.stored.epoch(), body, from);
    let out = one(here.alloc, sent)?;
    Ok(sending(here.alloc, out, *here.state))
}

/// Another monitor reports which versions it keeps, and in which quorum it is. A monitor that probes then copies its
/// store, calls an election, or notes it and waits for more.
pub(crate) fn hear_probe_reply(
    here: &Here<'_>,
    from: Rank,
    quorum: RankSet,
    first: Version,
    last: Version,
) -> Plan<Prober>
    ensures plans { (now : ℕ) →
        ByRow here.now now (hear_probe_reply here.now.me.now now from quorum first last) (Ok result) }
    ensures leaves { Leaves here.now.view.now.phase result.next result.tx }
{
    if !is_probing(here.view.phase) {
        return stay(here.alloc, *here.state);
    }
    if here.stored.is_marked() {
        if reaches_floor(here.stored, last) {
            return planned(here.alloc, *here.state, Next::FullSync { from });
        }
        return stay(here.alloc, *here.state);
    }
    if is_cut_off(here.stored, first) {
        return planned(here.alloc, *here.state, Next::FullSync { from });
    }
    if lags(here.stored, last) {
        return planned(here.alloc, *here.state, Next::RecentSync { from });
    }
    if is_quorum(quorum) {
        return planned(here.alloc, *here.state, Next::Elect);
    }
    let outside = here.state.outside.with(from);
    if outside.is_majority(here.me.member.monitors) {
        return planned(here.alloc, Prober { outside }, Next::Elect);
    }
    stay(here.alloc, Prober { outside })
}
