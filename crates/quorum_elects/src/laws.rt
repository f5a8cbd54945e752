ghost use Rattle.std.specs.Prelude.{◌≡◌, ℕ, ◌+◌, ◌*◌, ◌<◌, Bool, List, None};
ghost use Rattle.quorum_elects.specs.Electing.{election};
ghost use Rattle.quorum_elects.specs.Leading.{HasLeader};
ghost use Rattle.quorum_elects.specs.Plans.{PlannedWay};
ghost use Rattle.quorum_elects.specs.Ready.{AllNear, IsReady};
ghost use Rattle.quorum_elects.specs.Ways.{Clock, HasWay};
ghost use Rattle.quorum_laws.specs.Accepting.{IsMajorityOf};
ghost use Rattle.quorum_model.specs.Events.{AllFit};
ghost use Rattle.quorum_model.specs.Monitors.{Monitors};
ghost use Rattle.quorum_model.specs.Runs.{ran, run};
ghost use Rattle.quorum_model.specs.World.{Event};

/// A majority that is near the whole log and ready to serve can elect a leader, under any rule, whatever the run was
/// before. Ready means that one of its members may lead and that there is room (`IsReady`). It takes at most
/// 2n² + 4n + 2 further events, all of them at its monitors, at any times. The leader is then collecting.
pub fn law_near_majority_elects()
    ensures { (ms : Monitors) → 1 < ms.count → (events : List Event) → AllFit ms.count events
        → (ran ms events).stop ≡ None → (q : List Bool) → IsMajorityOf ms.count q
        → AllNear q (run ms events) → IsReady ms q (run ms events) → (clock : Clock)
        → HasWay ms events q None clock (2 * ms.count * ms.count + 4 * ms.count + 2) (HasLeader ms.count q) }
{}

/// The events that elect a leader follow the plan `election`, which gives their kind, sender, receiver and order, at any
/// times. Each step of the plan computes its events from the world that the events before it lead to.
pub fn law_election_is_planned()
    ensures { (ms : Monitors) → 1 < ms.count → (events : List Event) → AllFit ms.count events
        → (ran ms events).stop ≡ None → (q : List Bool) → IsMajorityOf ms.count q
        → AllNear q (run ms events) → IsReady ms q (run ms events) → (clock : Clock)
        → PlannedWay ms events q None clock (election ms q) (2 * ms.count * ms.count + 4 * ms.count + 2)
        (HasLeader ms.count q) }
{}
