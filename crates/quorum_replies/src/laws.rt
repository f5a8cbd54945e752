ghost use Rattle.std.specs.Prelude.{List};
ghost use Rattle.quorum_model.specs.Monitors.{Monitors};
ghost use Rattle.quorum_model.specs.Runs.{run};
ghost use Rattle.quorum_model.specs.World.{Event};
ghost use Rattle.quorum_replies.specs.Replies.{AnsweredOnce};

/// A monitor replies to a session no more often than the session asked it. This holds after every run of any monitors,
/// whatever is lost, repeated or late. Requests of one session are counted, and not distinguished: the law doesn't say
/// which of them a reply answers.
pub fn law_replies()
    ensures { (ms : Monitors) (events : List Event) → AnsweredOnce (run ms events) }
{}
