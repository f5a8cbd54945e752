//! Another monitor has won.

ghost use Rattle.std.specs.Prelude.{IfOk};
ghost use Rattle.mon_msg.specs.Protocol.Elections.{hear_victory};
ghost use Rattle.mon_plan.specs.Leaves.{Leaves};
ghost use Rattle.mon_elector.specs.Rows.{ByRow};

use crate::here::Here;
use crate::seen::{is_deaf_to_winners, is_next, is_reached, may_follow};
use crate::steps::{enter_epoch, enter_epoch_until};
use mon_msg::{Elector, Next, Plan, RoleStop, Timer};
use mon_plan::{armed, stay};
use mon_types::{Epoch, Rank, RankSet};

/// Another monitor leads a quorum in an epoch. The monitor follows it if that is the next epoch and it is in the
/// quorum. In a later epoch than the next one it calls an election.
pub(crate) fn hear_victory(
    here: &Here<'_>,
    from: Rank,
    epoch: Epoch,
    quorum: RankSet,
) -> Result<Plan<Elector>, RoleStop>
    ensures plans { ByRow here.now (hear_victory here.now.me.now here.now.time from epoch quorum) result }
    ensures leaves { IfOk result (λ p. Leaves here.now.view.now.phase p.next p.tx) }
{
    if is_deaf_to_winners(here.view, epoch) {
        return Ok(stay(here.alloc, *here.state));
    }
    if is_reached(here.stored, epoch) {
        return Ok(stay(here.alloc, *here.state));
    }
    if !is_next(here.stored, epoch) {
        return Ok(enter_epoch(here.alloc, epoch, *here.state, Next::Elect)?);
    }
    if !may_follow(here.me, quorum, from) {
        return Ok(stay(here.alloc, *here.state));
    }
    let leader = from;
    let arming = armed(here.time, Timer::Lease);
    let next = Next::Follow { leader, quorum };
    Ok(enter_epoch_until(here.alloc, epoch, *here.state, arming, next)?)
}
