//! Another monitor defers to this one, and the end of an election.

ghost use Rattle.std.specs.Prelude.{IfOk};
ghost use Rattle.mon_msg.specs.Protocol.Elections.{hear_ack, election_ends};
ghost use Rattle.mon_plan.specs.Leaves.{Leaves};
ghost use Rattle.mon_elector.specs.Rows.{ByRow};

use crate::here::Here;
use crate::seen::{is_deaf, is_electing, is_later, is_past, leads_all, may_win};
use crate::steps::{enter_epoch, joining, win};
use mon_msg::{Elector, Next, Plan, RoleStop};
use mon_plan::{planned, stay};
use mon_types::{Epoch, Rank};

/// Another monitor defers to this one in an epoch. A candidate that may lead wins at once if all monitors of its map
/// defer to it. If the epoch is after its own, the monitor enters it and calls an election.
pub(crate) fn hear_ack(here: &Here<'_>, from: Rank, epoch: Epoch) -> Result<Plan<Elector>, RoleStop>
    ensures plans { ByRow here.now (hear_ack here.now.me.now here.now.time from epoch) result }
    ensures leaves { IfOk result (λ p. Leaves here.now.view.now.phase p.next p.tx) }
{
    if is_deaf(here.view, epoch) {
        return Ok(stay(here.alloc, *here.state));
    }
    if is_past(here.stored, epoch) {
        return Ok(stay(here.alloc, *here.state));
    }
    if is_later(here.stored, epoch) {
        return Ok(enter_epoch(here.alloc, epoch, joining(here.state), Next::Elect)?);
    }
    if !here.state.candidate {
        return Ok(stay(here.alloc, *here.state));
    }
    let acked = here.state.acked.with(from);
    let counted = Elector {
        acked,
        ..*here.state
    };
    if leads_all(here.me, acked) {
        return win(here.alloc, here.stored, counted, acked);
    }
    Ok(stay(here.alloc, counted))
}

/// The timer `Election` fires. A monitor in an election wins if it may, and otherwise calls a new election.
pub(crate) fn election_ends(here: &Here<'_>) -> Result<Plan<Elector>, RoleStop>
    ensures plans { ByRow here.now (election_ends here.now.me.now here.now.time) result }
    ensures leaves { IfOk result (λ p. Leaves here.now.view.now.phase p.next p.tx) }
{
    if !is_electing(here.view.phase) {
        return Ok(stay(here.alloc, *here.state));
    }
    if may_win(here.me, here.state) {
        return win(here.alloc, here.stored, *here.state, here.state.acked);
    }
    Ok(planned(here.alloc, *here.state, Next::Elect))
}
