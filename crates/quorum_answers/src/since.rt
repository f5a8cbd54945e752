ghost use Rattle.std.specs.Prelude.{List};
ghost use Rattle.quorum_model.specs.Events.{AllFit};
ghost use Rattle.quorum_model.specs.Monitors.{Monitors};
ghost use Rattle.quorum_model.specs.Runs.{run};
ghost use Rattle.quorum_model.specs.World.{Event};
ghost use Rattle.quorum_answers.specs.Changes.{AllNameNext};

/// An answer with the changes after a version has at least the next one, if its monitor has a later version of that
/// map. So a client that asks on from the last change that it has reaches the map of its monitor. This holds in every run
/// of any monitors under any rule.
pub fn law_since()
    ensures { (ms : Monitors) (events : List Event) → AllFit ms.count events → AllNameNext (run ms events) }
{}
