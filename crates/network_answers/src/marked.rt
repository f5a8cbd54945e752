ghost use Rattle.std.specs.List.{Contains};
ghost use Rattle.std.specs.Prelude.{List, ◌++◌};
ghost use Rattle.quorum_model.specs.Monitors.{Monitors};
ghost use Rattle.quorum_model.specs.World.{Acknowledgement};
ghost use Rattle.quorum_network.specs.Network.{AllMay, Step, may_before};
ghost use Rattle.quorum_network.specs.Requests.{acknowledgements, requests};
ghost use Rattle.network_answers.specs.Answers.{Answer};
ghost use Rattle.network_answers.specs.History.{HaveAnswers};
ghost use Rattle.network_answers.specs.Marked.{Includes, ShowsMarker};

/// A map that has a client's marker has everything that was acknowledged before the client asked for it, in every
/// history that has a log and answers. The marker is a key with a value, or a text of the cluster log, for which nobody
/// had asked by some point in time. This holds in whatever epochs and at whichever monitor, cut off or not, and even if
/// the client got no Done for its marker.
pub fn law_marked_map()
    ensures { (ms : Monitors) (H : HaveAnswers ms) (later earlier : List Step) (may : AllMay ms (later ++ earlier))
        → (a : Answer) → Contains (H.answers (later ++ earlier) may) a → (M : ShowsMarker (requests ms earlier) a)
        → (what : Acknowledgement) → Contains (acknowledgements ms earlier) what
        → Includes (H.log (later ++ earlier) may) (requests ms earlier) a M what }
{}
