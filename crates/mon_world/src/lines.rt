//! What is reported of an event.

ghost use Rattle.std.specs.Prelude.{◌≡◌};
ghost use Rattle.mon_world.specs.Step.{still_line, reported};

use mon_msg::Items;
use std::alloc::Global;
use trace_text::{Outcome, Replies, StateLine, StepLine};

/// The state that is reported: `now` after a start or if it differs from `before`, otherwise none.
pub(crate) fn reported(before: Option<StateLine>, now: StateLine) -> Option<StateLine>
    ensures { result ≡ reported before now }
{
    let Some(before) = before else {
        return Some(now);
    };
    if before.phase == now.phase && before.epoch == now.epoch && before.last == now.last {
        None
    } else {
        Some(now)
    }
}

/// The lines of an event of which the outcome alone is reported: no state, no message and no reply.
pub(crate) fn still(alloc: Global, outcome: Outcome) -> StepLine
    ensures { result ≡ still_line outcome }
{
    StepLine {
        outcome,
        ops: 0,
        state: None,
        sent: Items::new(alloc),
        replies: Replies::new(alloc),
    }
}
