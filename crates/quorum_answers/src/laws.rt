ghost use Rattle.std.specs.Prelude.{List, ◌++◌};
ghost use Rattle.quorum_model.specs.Events.{AllFit};
ghost use Rattle.quorum_model.specs.Monitors.{Monitors};
ghost use Rattle.quorum_model.specs.Runs.{run};
ghost use Rattle.quorum_model.specs.World.{Event};
ghost use Rattle.quorum_answers.specs.Linear.{Linearizable};
ghost use Rattle.quorum_answers.specs.Reads.{EachOnward, EpochsOnward};
ghost use Rattle.quorum_answers.specs.Refused.{AllRefused};

/// The acknowledged writes and the reads of one epoch are linearizable: the order of their events is the order of the
/// one log. This holds in every run of any monitors under any rule, whatever is lost, repeated or late and wherever
/// monitors crash. The last version of the monitor of a read is never lower than at the reads before it in its epoch, by
/// whichever monitors, and never lower than at the earlier reads of that monitor, in whatever epochs.
///
/// The law doesn't say that a client asked before its operation took effect. It gives no order to what two monitors
/// show or acknowledge in two epochs.
pub fn law_reads()
    ensures linear { (ms : Monitors) (events : List Event) → AllFit ms.count events
        → Linearizable ms.count (run ms events) }
    ensures epochs { (ms : Monitors) (events : List Event) → AllFit ms.count events
        → EpochsOnward (run ms events) }
    ensures each { (ms : Monitors) (events : List Event) → AllFit ms.count events
        → EachOnward (run ms events) }
{}

/// Each NoSuch, TooLong and MapFull answers a command that its session asked of its monitor, in every run of any
/// monitors. It is the refusal of the command's service over the versions of the one log up to some version. If the
/// command was first asked after `before`, that version isn't below any that was acknowledged in `before` in the
/// reply's epoch.
pub fn law_refusals()
    ensures { (ms : Monitors) (before after : List Event) → AllFit ms.count (before ++ after)
        → AllRefused (run ms before) (run ms (before ++ after)) }
{}
