ghost use Rattle.watch_laws.specs.Datagrams.{LinkIsSo};
ghost use Rattle.watch_laws.specs.Watching.{LagEnds, WatchIsSo};

/// In every run of two monitors or more, what a link that watches shows of its monitor is true: its phase, its epoch,
/// who leads its quorum and from whom it takes a store. It may lag: a monitor that has just started shows nothing, and
/// one that follows a new leader is seen to take part in the election, until its next message that shows a phase.
/// `messages` says it of the messages that the monitor's core sends, and `datagrams` of what `Watched` notes of
/// datagrams, whatever arrives between them.
pub fn law_watch()
    ensures messages { WatchIsSo }
    ensures datagrams { LinkIsSo }
{}

/// The lag of `law_watch` ends when the monitor sends a message that shows a phase and can be read. A LAST that is
/// longer than a datagram may be one that can't.
pub fn law_lag()
    ensures { LagEnds }
{}
