//! The quorum of a calm run: after the starts monitor 0 leads all others.
#![tactic(auto)]

ghost use Rattle.std.specs.Prelude.{ℕ, ◌≤◌, []};
ghost use Rattle.quorum_model.specs.CalmRun.{IsCalm};
ghost use Rattle.quorum_model.specs.CalmSchedule.{orders};
ghost use Rattle.quorum_model.specs.Monitors.{classic};

/// For every number of monitors from 1 to 15 under the classic rule, the run of all starts and of the deliveries that
/// follow is calm: monitor 0 leads a quorum of all, every message was delivered, and nothing is committed.
pub fn law_calm_quorum()
    ensures { (n : ℕ) → 1 ≤ n → (most : n ≤ 15) → IsCalm (classic n most) [] (orders (classic n most) []) }
{}
