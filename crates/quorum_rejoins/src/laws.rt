ghost use Rattle.std.specs.Prelude.{◌≡◌, ℕ, ◌+◌, ◌*◌, ◌≤◌, Bool, List, None, Some, false};
ghost use Rattle.log_model.specs.LogOfValues.{IsCommand};
ghost use Rattle.mon_bytes.specs.declared.command.Command.{Command};
ghost use Rattle.mon_msg.specs.Protocol.Commands.{is_too_long};
ghost use Rattle.mon_wire.specs.declared.request.Session.{Session};
ghost use Rattle.quorum_elects.specs.Ready.{IsReady};
ghost use Rattle.quorum_elects.specs.Ways.{Clock, ComesInLease, HasWay};
ghost use Rattle.quorum_laws.specs.Accepting.{IsMajorityOf};
ghost use Rattle.quorum_model.specs.Events.{AllFit};
ghost use Rattle.quorum_model.specs.Monitors.{Monitors};
ghost use Rattle.quorum_model.specs.Runs.{ran, run};
ghost use Rattle.quorum_model.specs.World.{Event};
ghost use Rattle.quorum_recovers.specs.Serving.{IsServed};
ghost use Rattle.quorum_rejoins.specs.Lagging.{CaughtUp, HaveRoom, NoneBetween};

/// After every run that nothing stopped, any majority can catch up by itself, under any rule, however far its monitors
/// are from the whole log. The premise is that there is room (`HaveRoom`): their numbers and the log can still grow, no
/// value of a monitor's own is longer than a transaction may be, and a store in a full synchronization has no longer
/// value at all and can grow by 1,000 bytes.
///
/// At most 1,850n + 1 further events lead there, all of them at monitors of the majority. Then none of the majority is
/// in a full synchronization, and each lacks at most 11 versions. One that was in a full synchronization, or lacked more
/// than 11, lacks at most one. No event is a crash, and no message that was sent before is delivered.
pub fn law_majority_catches_up()
    ensures { (ms : Monitors) → 1 ≤ ms.count → (events : List Event) → AllFit ms.count events
        → (ran ms events).stop ≡ None → (q : List Bool) → IsMajorityOf ms.count q → HaveRoom q (run ms events)
        → (clock : Clock) → HasWay ms events q None clock (1850 * ms.count + 1) (CaughtUp q) }
{}

/// After every run that nothing stopped, any majority can serve again, under any rule. There are three premises: there
/// is room, as for `law_majority_catches_up`; one of its members may lead; and no member lacks from 2 to 11 versions,
/// unless it is in a full synchronization.
///
/// The command that a client asks is well-formed and not too long, and comes before the end of its leader's lease. All
/// other events come at any times. At most 2n² + 1,864n + 6 further events, all of them at
/// monitors of the majority, lead to its reply: the command is a new version of the log, or its service refuses it.
pub fn law_far_majority_serves()
    ensures { (ms : Monitors) → 1 ≤ ms.count → (events : List Event) → AllFit ms.count events
        → (ran ms events).stop ≡ None → (q : List Bool) → IsMajorityOf ms.count q → HaveRoom q (run ms events)
        → IsReady ms q (run ms events) → NoneBetween q (run ms events)
        → (s : Session) (c : Command) → IsCommand c → is_too_long c ≡ false
        → (clock : Clock) → ComesInLease q clock
        → HasWay ms events q (Some (s, c)) clock (2 * ms.count * ms.count + 1864 * ms.count + 6) (IsServed ms.count s c) }
{}
