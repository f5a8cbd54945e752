ghost use Rattle.std.specs.Prelude.{◌≡◌, ℕ, ◌≤◌, List};
ghost use Rattle.std.specs.List.{AllByRecursion};
ghost use Rattle.mon_wire.specs.declared.reply.Reply.{Reply};
ghost use Rattle.mon_wire.specs.declared.request.Service.{Service};
ghost use Rattle.quorum_model.specs.Monitors.{Monitors};
ghost use Rattle.quorum_model.specs.Runs.{run};
ghost use Rattle.quorum_model.specs.Safe.{Safe};
ghost use Rattle.quorum_model.specs.World.{Event};
ghost use Rattle.map_follower.specs.declared.follower.Follower.{Follower};
ghost use Rattle.map_follower.specs.Copies.{first, taken, taken_all};
ghost use Rattle.map_follower.specs.Following.{WasGiven, Holds};

/// A follower that takes replies of one safe run, in any order and with any losses and repeats, always holds the map that
/// the run's log gives its service at the follower's version. That version never falls.
pub fn law_follow()
    ensures holds { (ms : Monitors) (events : List Event) → Safe ms events → (s : Service) (replies : List Reply)
        → AllByRecursion (WasGiven (run ms events)) replies → Holds s (run ms events).log (taken_all (first s) replies) }
    ensures rises { (f : Follower) (r : Reply) → f.version ≤ (taken f r).0.version }
{}
