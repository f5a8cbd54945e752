ghost use Rattle.std.specs.Prelude.{List, ◌++◌};
ghost use Rattle.quorum_model.specs.Monitors.{Monitors};
ghost use Rattle.quorum_network.specs.Network.{AllMay, Step, may_before};
ghost use Rattle.quorum_network.specs.Requests.{acknowledgements, requests};
ghost use Rattle.network_answers.specs.Epochs.{AreDoneInOrder, AreLinearizable};
ghost use Rattle.network_answers.specs.History.{HaveAnswers};

/// What a client sees of its writes is in order over all epochs, in every history that has a log and answers. Let a
/// session ask only for changes for which nobody had asked by some point in time. Then the version of its Done is above
/// the version of each Done, and above the last version of each answer that shows something, that were there by then.
/// Two changes never have one version.
///
/// A client has to ask each of its sessions for one change, and make the change its own: by a text or a value that
/// nobody else writes. Of equal changes the law doesn't say which request a version is for.
pub fn law_writes()
    ensures { (ms : Monitors) (H : HaveAnswers ms) (later earlier : List Step) (may : AllMay ms (later ++ earlier))
        → AreDoneInOrder (requests ms earlier) (requests ms (later ++ earlier)) (H.log (later ++ earlier) may)
        (H.answers earlier (may_before ms later earlier may)) (H.answers (later ++ earlier) may) }
{}

/// Acknowledged writes are linearizable over all epochs, and so are the reads that show a mark, in every history that
/// has a log and answers. The order is that of the one log. Whatever was acknowledged or shown by some point in time
/// comes before each write for which nobody had asked by then, and before each read that shows a version for which
/// nobody had asked by then. This holds at whichever monitors, also at those that are cut off from the others.
///
/// For a read that is no older than what was acknowledged before it, a client writes a mark: a change of its own, for
/// which nobody asked before. It reads from any monitor until the `paxos` of a Shown is at least the version with which
/// the mark is answered as done. This map has everything that was acknowledged before the client asked for its mark,
/// and each later map with at least that `paxos` has it too. Changes that have the mark are as new, even if its client
/// got no Done.
pub fn law_fresh()
    ensures { (ms : Monitors) (H : HaveAnswers ms) (later earlier : List Step) (may : AllMay ms (later ++ earlier))
        → AreLinearizable (requests ms earlier) (H.log earlier (may_before ms later earlier may))
        (H.log (later ++ earlier) may) (acknowledgements ms earlier) (acknowledgements ms (later ++ earlier))
        (H.answers earlier (may_before ms later earlier may)) (H.answers (later ++ earlier) may) }
{}
