ghost use Rattle.std.specs.Prelude.{◌≡◌, ℕ, Bool, List, ◌++◌};
ghost use Rattle.quorum_model.specs.Events.{AllFit};
ghost use Rattle.quorum_model.specs.Monitors.{Monitors};
ghost use Rattle.quorum_model.specs.Runs.{run};
ghost use Rattle.quorum_model.specs.Safe.{Held, OneActive};
ghost use Rattle.quorum_model.specs.World.{Event};
ghost use Rattle.quorum_laws.specs.Commands.{CommandsHold};
ghost use Rattle.quorum_laws.specs.Elections.{ActiveAreLed, EpochsSent, IsMember, IsQuorum};
ghost use Rattle.quorum_laws.specs.Leases.{LeasesHold};
ghost use Rattle.quorum_laws.specs.Promises.{AllNumbersRise, AllRemember, AnswersCover, NeverDecrease, NumbersHold, ValuesAlone};
ghost use Rattle.quorum_laws.specs.Values.{IsChosen, LeadersKnow, LeavesNoRoom, OneValue, ProposesNew};

/// No epoch has two active leaders, in no run of any monitors: whatever is lost, repeated or late, and wherever monitors crash.
pub fn law_one_active()
    ensures { (ms : Monitors) (events : List Event) → AllFit ms.count events → OneActive (run ms events) }
{}

/// In every run of any monitors a store is the result of its kept transactions, in order. These are the transactions of
/// all its monitor's events, except those that a crash lost.
pub fn law_held()
    ensures { (ms : Monitors) (events : List Event) → AllFit ms.count events → Held ms events }
{}

/// A monitor's epoch is at least that of each message that it sent. A monitor that leads or follows is in an even epoch
/// and in the quorum of its leader, which is a majority of the map. Whenever it is in a quorum of that epoch again, it
/// is in the same one under the same leader, and it was in it all the time between.
///
/// An active leader has its whole quorum: all of it reached the epoch, and each of it that leads or follows in that
/// epoch is in this quorum, under this leader.
pub fn law_elections()
    ensures epochs { (ms : Monitors) (events : List Event) → AllFit ms.count events → EpochsSent (run ms events) }
    ensures quorums { (ms : Monitors) (events : List Event) → AllFit ms.count events → (i e l : ℕ) (q : List Bool)
        → IsMember (run ms events) i e l q → IsQuorum ms.count i e l q }
    ensures once { (ms : Monitors) (before after : List Event) → AllFit ms.count (before ++ after) → (i e l k : ℕ) (q r : List Bool)
        → IsMember (run ms before) i e l q → IsMember (run ms (before ++ after)) i e k r → (l ≡ k) × (q ≡ r) }
    ensures between { (ms : Monitors) (before between after : List Event) → AllFit ms.count ((before ++ between) ++ after)
        → (i e l k : ℕ) (q r : List Bool) → IsMember (run ms before) i e l q
        → IsMember (run ms ((before ++ between) ++ after)) i e k r → IsMember (run ms (before ++ between)) i e l q }
    ensures led { (ms : Monitors) (events : List Event) → AllFit ms.count events → ActiveAreLed ms.count (run ms events) }
{}

/// A promise forbids a monitor to accept under lower numbers. Each number belongs to one monitor and one collect. A
/// monitor promised each number under which it answers or accepts. Its epoch, its promise and its level never fall. Its
/// level is the floor of a full synchronization in progress, and otherwise its last version.
///
/// A monitor doesn't forget a value that it accepted: the version is committed or pending, or the floor of a full
/// synchronization reaches it. A whole answer to COLLECT covers what its monitor accepted under lower numbers, then and
/// ever after. Each value in a message or record is that of some command.
pub fn law_promises()
    ensures numbers { (ms : Monitors) (events : List Event) → AllFit ms.count events → NumbersHold (run ms events) }
    ensures collects { (ms : Monitors) (events : List Event) → AllFit ms.count events → AllNumbersRise (run ms events) }
    ensures rising { (ms : Monitors) (before after : List Event) → AllFit ms.count (before ++ after) → (i : ℕ)
        → NeverDecrease (run ms before) (run ms (before ++ after)) i }
    ensures remembered { (ms : Monitors) (events : List Event) → AllFit ms.count events → AllRemember (run ms events) }
    ensures covered { (ms : Monitors) (events : List Event) → AllFit ms.count events → AnswersCover (run ms events) }
    ensures values { (ms : Monitors) (events : List Event) → AllFit ms.count events → ValuesAlone (run ms events) }
{}

/// No two values are chosen for one version. All values accepted for a version under one number are the same. A value
/// that was accepted leaves no room for another one under a lower number.
///
/// A leader that has heard its quorum has each version for which one of the quorum accepted a value under a lower
/// number; or that is its next version, and it proposes the value of the greatest such number. The value of a leader in
/// updating is new: for each lower number every majority has a rank that accepted nothing under it for that version,
/// then and ever after.
pub fn law_values()
    ensures one { (ms : Monitors) (events : List Event) → AllFit ms.count events → OneValue (run ms events) }
    ensures room { (ms : Monitors) (events : List Event) → AllFit ms.count events → LeavesNoRoom ms.count (run ms events) }
    ensures chosen { (ms : Monitors) (events : List Event) → AllFit ms.count events → (v : ℕ) (bytes other : List ℕ)
        → IsChosen ms.count (run ms events) v bytes → IsChosen ms.count (run ms events) v other → bytes ≡ other }
    ensures leaders { (ms : Monitors) (events : List Event) → AllFit ms.count events → LeadersKnow (run ms events) }
    ensures fresh { (ms : Monitors) (before after : List Event) → AllFit ms.count (before ++ after)
        → ProposesNew ms.count (run ms before) (run ms (before ++ after)) }
{}

/// As long as a lease isn't cancelled this holds, whatever its time. The monitor that gives it has its whole quorum in
/// its epoch. A peon with a lease has committed each version for which it ever accepted a value.
pub fn law_leases()
    ensures { (ms : Monitors) (events : List Event) → AllFit ms.count events → LeasesHold ms.count (run ms events) }
{}

/// A command that a monitor forwards was asked of it by a session. A command that waits at a leader was asked of the
/// leader, or of the peon that forwarded it. Each session that waits at a peon asked that peon a command.
pub fn law_commands()
    ensures { (ms : Monitors) (events : List Event) → AllFit ms.count events → CommandsHold ms.count (run ms events) }
{}
