//! Another monitor proposes itself as the leader.

ghost use Rattle.std.specs.Prelude.{IfOk};
ghost use Rattle.mon_msg.specs.Protocol.Elections.{hear_propose};
ghost use Rattle.mon_plan.specs.Leaves.{Leaves};
ghost use Rattle.mon_elector.specs.Rows.{ByRow};

use crate::here::Here;
use crate::seen::{
    is_better, is_deaf, is_idle, is_later, is_left_out, is_past, may_defer, table_or,
};
use crate::steps::{defer, enter_epoch, join_and_defer, joining, merged};
use mon_msg::{Elector, Next, Plan, RoleStop, ScoreTable, Timer};
use mon_plan::{armed, planned, stay};
use mon_types::{Epoch, Rank};

/// Another monitor proposes itself in an epoch, with its table if scores count. The monitor defers to it, calls an
/// election, or does neither.
pub(crate) fn hear_propose(
    here: &Here<'_>,
    from: Rank,
    epoch: Epoch,
    table: &Option<ScoreTable>,
) -> Result<Plan<Elector>, RoleStop>
    ensures plans { ByRow here.now (hear_propose here.now.me.now here.now.time from epoch table.now) result }
    ensures leaves { IfOk result (λ p. Leaves here.now.view.now.phase p.next p.tx) }
{
    if is_deaf(here.view, epoch) {
        return Ok(stay(here.alloc, *here.state));
    }
    if is_past(here.stored, epoch) {
        if is_left_out(here.stored, here.view, from) {
            return Ok(planned(here.alloc, *here.state, Next::Elect));
        }
        return Ok(stay(here.alloc, *here.state));
    }
    let is_better = is_better(here.me, table_or(table, &here.state.scores), from);
    let merged = merged(table, here.state);
    if is_later(here.stored, epoch) {
        let joining = joining(&merged);
        if is_better {
            let arming = armed(here.time, Timer::Election);
            return Ok(join_and_defer(here.alloc, here.me, epoch, &joining, from, arming)?);
        }
        return Ok(enter_epoch(here.alloc, epoch, joining, Next::Elect)?);
    }
    if is_better {
        if may_defer(
            here.me,
            table_or(table, &here.state.scores),
            from,
            merged.deferred,
        ) {
            return Ok(defer(here.alloc, here.me, epoch, &merged, from)?);
        }
        return Ok(stay(here.alloc, merged));
    }
    if is_idle(&merged) {
        return Ok(planned(here.alloc, merged, Next::Elect));
    }
    Ok(stay(here.alloc, merged))
}
