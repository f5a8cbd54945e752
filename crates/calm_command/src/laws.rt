ghost use Rattle.std.specs.Prelude.{ℕ, suc, ◌≤◌, ◌<◌, List, [], ◌∷◌, ◌++◌, length};
ghost use Rattle.log_model.specs.LogOfValues.{IsCommand};
ghost use Rattle.quorum_model.specs.CalmRun.{IsCalm};
ghost use Rattle.quorum_model.specs.CalmSchedule.{Order, asks, request_of, then_delivered};
ghost use Rattle.quorum_model.specs.Monitors.{Monitors};
ghost use Rattle.quorum_model.specs.World.{Event};
ghost use Rattle.calm_command.specs.Resting.{IsResting};

/// Let a run rest (`IsResting`) after at most 100,000 commands. With one more command at any monitor, and all
/// deliveries that follow, the run rests again, and the command got its reply. A run of at least one monitor that rests
/// is calm.
pub fn law_calm_command()
    ensures next { (ms : Monitors) (cs : List Order) (events : List Event) → IsResting ms cs events
        → length cs ≤ 100000 → (c : Order) → c.0 < ms.count → IsCommand c.1
        → IsResting ms (cs ++ c ∷ []) (then_delivered ms events (asks (suc (length cs)) c.0 (request_of c.1) ∷ [])) }
    ensures calm { (ms : Monitors) (cs : List Order) (events : List Event) → IsResting ms cs events → 0 < ms.count
        → IsCalm ms cs events }
{}
