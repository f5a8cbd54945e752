//! Calm runs, whole: a quorum of 1 to 15 monitors does its work.
#![tactic(auto)]

ghost use Rattle.std.specs.Prelude.{ℕ, ◌≤◌, List};
ghost use Rattle.quorum_model.specs.CalmRun.{EndsCalmly};
ghost use Rattle.quorum_model.specs.CalmSchedule.{Order, OrdersFit, orders};
ghost use Rattle.quorum_model.specs.Monitors.{classic};
ghost use Rattle.calm_command.specs.Resting.{IsResting};

/// For every number of monitors from 1 to 15 under the classic rule, and every list of at most 100,000 commands, each
/// asked of any monitor, the calm schedule is completed. No event stops the run, it is calm before the maps are shown,
/// each command got its reply, and each monitor shows both maps. The run rests before the maps are shown, so
/// `law_calm_command` holds of it.
pub fn law_calm()
    ensures ends { (n : ℕ) (most : n ≤ 15) (cs : List Order) → OrdersFit n cs → EndsCalmly n most cs }
    ensures rests { (n : ℕ) (most : n ≤ 15) (cs : List Order) → OrdersFit n cs
        → IsResting (classic n most) cs (orders (classic n most) cs) }
{}
