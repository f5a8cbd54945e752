ghost use Rattle.std.specs.List.{AllByRecursion};
ghost use Rattle.std.specs.Prelude.{List};
ghost use Rattle.quorum_model.specs.Monitors.{Monitors};
ghost use Rattle.quorum_network.specs.Network.{AllMay, Step};
ghost use Rattle.quorum_network.specs.Requests.{requests};
ghost use Rattle.network_answers.specs.Answers.{Answer};
ghost use Rattle.network_answers.specs.History.{HaveAnswers};
ghost use Rattle.network_answers.specs.Whose.{AsksOnce, IsTo};

/// If at most one request of a session came to a monitor, each of its answers to that session is to this request, in
/// every history that has a log and answers. A Done names a version that makes the request's change. A map or changes
/// are what the request asks for. A NoSuch, TooLong or MapFull is to a command. After each answer but Done the request
/// makes no version, neither before the answer nor ever after.
pub fn law_one_request()
    ensures { (ms : Monitors) (H : HaveAnswers ms) (steps : List Step) (may : AllMay ms steps)
        → AllByRecursion (λ (a : Answer). AsksOnce (requests ms steps) a.rank a.session
        → IsTo (requests ms steps) (H.log steps may) (H.unmade steps may).request a) (H.answers steps may) }
{}
