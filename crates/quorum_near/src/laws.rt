ghost use Rattle.std.specs.Prelude.{ℕ, ◌≤◌, List, Bool};
ghost use Rattle.quorum_laws.specs.Accepting.{IsMajorityOf};
ghost use Rattle.quorum_model.specs.Events.{AllFit};
ghost use Rattle.quorum_model.specs.Monitors.{Monitors};
ghost use Rattle.quorum_model.specs.Runs.{run};
ghost use Rattle.quorum_model.specs.World.{Event};
ghost use Rattle.quorum_near.specs.Near.{FloorsLow, HasNear, SomeNear};

/// After every run of any monitors under any rule, crashes included, a majority is near the whole log. Each of its
/// monitors has all versions, or all but the last one, which is its pending value. None of them is in a full
/// synchronization. So each majority has such a monitor.
///
/// The floor of each full synchronization is at least 501 versions below the end of the log. So each monitor that is
/// near has the version that the copy must reach.
pub fn law_majority_is_near()
    ensures some { (ms : Monitors) (events : List Event) → AllFit ms.count events → 1 ≤ ms.count
        → HasNear ms.count (run ms events) }
    ensures every { (ms : Monitors) (events : List Event) → AllFit ms.count events → 1 ≤ ms.count
        → (q : List Bool) → IsMajorityOf ms.count q → SomeNear (run ms events) q }
    ensures floors { (ms : Monitors) (events : List Event) → AllFit ms.count events
        → FloorsLow ms.count (run ms events) }
{}
