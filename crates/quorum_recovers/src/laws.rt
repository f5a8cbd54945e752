ghost use Rattle.std.specs.Prelude.{◌≡◌, ℕ, ◌+◌, ◌*◌, ◌≤◌, Bool, List, None, Some, false};
ghost use Rattle.log_model.specs.LogOfValues.{IsCommand};
ghost use Rattle.mon_bytes.specs.declared.command.Command.{Command};
ghost use Rattle.mon_msg.specs.Protocol.Commands.{is_too_long};
ghost use Rattle.mon_wire.specs.declared.request.Session.{Session};
ghost use Rattle.quorum_elects.specs.Plans.{PlannedWay};
ghost use Rattle.quorum_elects.specs.Ready.{AllNear, IsReady};
ghost use Rattle.quorum_elects.specs.Ways.{Clock, ComesInLease, HasWay};
ghost use Rattle.quorum_laws.specs.Accepting.{IsMajorityOf};
ghost use Rattle.quorum_model.specs.Events.{AllFit};
ghost use Rattle.quorum_model.specs.Monitors.{Monitors};
ghost use Rattle.quorum_model.specs.Runs.{ran, run};
ghost use Rattle.quorum_model.specs.World.{Event};
ghost use Rattle.quorum_recovers.specs.Plan.{way_back};
ghost use Rattle.quorum_recovers.specs.Serving.{IsServed, SomeWay};

/// A majority that is near the whole log and ready to serve can serve, under any rule, whatever the run was before. At
/// most 2n² + 14n + 5 further events, all of them at its monitors, lead to the reply to a command that a client asks of
/// one of them: the command is a new version of the log, or its service refuses it. The events come at any times, of
/// whatever clock, if the command comes before the end of its leader's lease. A timer may fire before its time, so this
/// includes times at which each timer that fires is due.
pub fn law_near_majority_serves()
    ensures { (ms : Monitors) → 1 ≤ ms.count → (events : List Event) → AllFit ms.count events
        → (ran ms events).stop ≡ None → (q : List Bool) → IsMajorityOf ms.count q
        → AllNear q (run ms events) → IsReady ms q (run ms events)
        → (s : Session) (c : Command) → IsCommand c → is_too_long c ≡ false
        → (clock : Clock) → ComesInLease q clock
        → HasWay ms events q (Some (s, c)) clock (2 * ms.count * ms.count + 14 * ms.count + 5) (IsServed ms.count s c) }
{}

/// After every run that nothing stopped some majority can serve again by itself, if it has room and a member that may
/// lead. This holds of 1 to 15 monitors under any rule, whatever they went through: crashes, losses, copies cut short
/// and elections without end. All of the further events are at monitors of that majority, none is a crash, and none
/// delivers a message that was sent before. They come at any times, if the command comes before the end of its leader's
/// lease. The law doesn't say that these events happen.
pub fn law_recovers()
    ensures { (ms : Monitors) → 1 ≤ ms.count → (events : List Event) → AllFit ms.count events
        → (ran ms events).stop ≡ None → (s : Session) (c : Command) → IsCommand c → is_too_long c ≡ false
        → (clock : Clock)
        → SomeWay ms events (Some (s, c)) clock (2 * ms.count * ms.count + 14 * ms.count + 5) (IsServed ms.count s c) }
{}

/// The further events of the way back follow the plan `way_back`, which gives their kind, sender, receiver and order. They
/// come at any times, if the command comes before the end of its leader's lease.
/// Each step of the plan computes its events from the world that the events before it lead to. If several messages have
/// that kind, sender and receiver, the plan doesn't say which of them is delivered.
pub fn law_way_back_is_planned()
    ensures { (ms : Monitors) → 1 ≤ ms.count → (events : List Event) → AllFit ms.count events
        → (ran ms events).stop ≡ None → (q : List Bool) → IsMajorityOf ms.count q
        → AllNear q (run ms events) → IsReady ms q (run ms events)
        → (s : Session) (c : Command) → IsCommand c → is_too_long c ≡ false
        → (clock : Clock) → ComesInLease q clock
        → PlannedWay ms events q (Some (s, c)) clock (way_back ms q s c) (2 * ms.count * ms.count + 14 * ms.count + 5)
        (IsServed ms.count s c) }
{}
