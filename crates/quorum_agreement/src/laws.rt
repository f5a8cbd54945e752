ghost use Rattle.std.specs.Prelude.{◌≡◌, ℕ, suc, ◌<◌, ◌≤◌, ◌^◌, true, List, ◌++◌, length};
ghost use Rattle.std.specs.List.{Contains};
ghost use Rattle.mon_kv.specs.Readers.{is_marked};
ghost use Rattle.mon_msg.specs.Fold.{entry};
ghost use Rattle.log_model.specs.LogOfValues.{AllValues};
ghost use Rattle.quorum_laws.specs.Values.{IsChosen};
ghost use Rattle.quorum_model.specs.Agree.{Agree};
ghost use Rattle.quorum_model.specs.Events.{AllFit};
ghost use Rattle.quorum_model.specs.Monitors.{Monitors};
ghost use Rattle.quorum_model.specs.Runs.{run};
ghost use Rattle.quorum_model.specs.Safe.{Safe};
ghost use Rattle.quorum_model.specs.World.{Envelope, Event};
ghost use Rattle.quorum_agreement.specs.Copying.{IsCopying, MarkedIfFull};
ghost use Rattle.quorum_agreement.specs.Growing.{GrowsBy};
ghost use Rattle.quorum_agreement.specs.Serving.{Fenced, KeptAndShown};
ghost use Rattle.quorum_agreement.specs.Matching.{MatchesLog};

/// No two monitors disagree on what is committed, in any run of any monitors under any rule, whenever monitors crash.
/// The committed versions of each are entries of one log. The log only grows, by at most one entry per event. Each
/// entry is the value of a command that a client asked, over the entries before it. If there are several monitors, a
/// majority of them accepted it under one proposal number.
pub fn law_agree()
    ensures agree { (ms : Monitors) (events : List Event) → AllFit ms.count events → Agree ms.count (run ms events) }
    ensures grows { (ms : Monitors) (before after : List Event) → AllFit ms.count (before ++ after)
        → GrowsBy (length after) (run ms before).log (run ms (before ++ after)).log }
    ensures values { (ms : Monitors) (events : List Event) → AllFit ms.count events
        → (length (run ms events).log ≤ 2 ^ 62) × AllValues (run ms events).log }
    ensures chosen { (ms : Monitors) (events : List Event) → AllFit ms.count events → 1 < ms.count → (v : ℕ) → v < length (run ms events).log
        → IsChosen ms.count (run ms events) (suc v) (entry (run ms events).log (suc v)) }
{}

/// What monitors send each other of committed versions is the one log's. The values that they send are those of the
/// log's versions, and the entries that they send are what the log's versions leave in a store. A monitor that is up
/// and marked by a full synchronization has a copy of the log as far as it took one, from its floor or above on, or it
/// looks for a monitor to copy from. A monitor that takes a copy is marked if and only if the copy is a full one.
pub fn law_marked()
    ensures told { (ms : Monitors) (events : List Event) → AllFit ms.count events → (e : Envelope) → Contains (run ms events).messages e
        → MatchesLog (run ms events).log e.message.body }
    ensures copied { (ms : Monitors) (events : List Event) → AllFit ms.count events → (i : ℕ) → i < ms.count
        → is_marked ((run ms events).store i) ≡ true → IsCopying (run ms events).log ((run ms events).store i) ((run ms events).state i) }
    ensures full { (ms : Monitors) (events : List Event) → AllFit ms.count events → (i : ℕ)
        → MarkedIfFull ((run ms events).store i) ((run ms events).state i) }
{}

/// What was acknowledged is kept, in every run of any monitors. Its version is in the log and puts what was
/// acknowledged, and every active leader with at least its proposal number has the version. No version is acknowledged
/// twice, and each Done answers a command that its session asked. What is shown is the one log's, up to the monitor's
/// last version, and was asked for.
pub fn law_kept()
    ensures { (ms : Monitors) (events : List Event) → AllFit ms.count events → KeptAndShown ms.count (run ms events) }
{}

/// The monitor of every read after an acknowledgement, in its epoch, has the acknowledged version, in every run of any
/// monitors. So a map that it shows includes that version; changes may end before it, if others follow. This holds
/// because no epoch has two active leaders, a leader gives a lease only if its whole quorum is in its epoch, and a peon
/// that has a lease has committed all that it ever accepted.
pub fn law_fence()
    ensures { (ms : Monitors) (events : List Event) → AllFit ms.count events → Fenced ms.count (run ms events) }
{}

/// Every run of any monitors under any rule is safe, whatever is lost, repeated or late and whenever monitors crash: no
/// two monitors disagree, what was acknowledged is kept, what is shown is the one log's, and no epoch has two active
/// leaders.
pub fn law_safe()
    ensures { (ms : Monitors) (events : List Event) → AllFit ms.count events → Safe ms events }
{}
