ghost use Rattle.std.specs.Prelude.{List, ◌++◌};
ghost use Rattle.quorum_commands.specs.Once.{CommittedOnce};
ghost use Rattle.quorum_commands.specs.Unmade.{Unmade};
ghost use Rattle.quorum_model.specs.Events.{AllFit};
ghost use Rattle.quorum_model.specs.Monitors.{Monitors};
ghost use Rattle.quorum_model.specs.Runs.{run};
ghost use Rattle.quorum_model.specs.World.{Event};

/// A message that is delivered twice never commits a command twice. In every run of any monitors under any rule,
/// whatever is lost, repeated or late and wherever monitors crash, each version of the log is the value of a request of
/// its own. What is committed at a point of the run is of requests made by then. So a command is committed no more
/// often than clients asked it. A request that a client sends again is another one.
pub fn law_once()
    ensures { (ms : Monitors) (before after : List Event) → AllFit ms.count (before ++ after)
        → CommittedOnce ms.count (run ms before) (run ms (before ++ after)) }
{}

/// After a reply other than Done some request of its session makes no version, neither before the reply nor ever after.
/// In every run of any monitors under any rule, each version of the log is the value of a request of its own. The
/// session that gets such a reply asked that monitor a request of which no version is.
///
/// If the session asked the monitor only once, that is the request answered: after Unavailable, NotReadable, Busy,
/// NoSuch, TooLong or MapFull its change isn't made, and never will be. If it asked more often, the law doesn't say
/// which of its requests that is. A request that a client sends again is another one.
pub fn law_unmade()
    ensures { (ms : Monitors) (events : List Event) → AllFit ms.count events → Unmade ms.count (run ms events) }
{}
