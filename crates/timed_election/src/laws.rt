ghost use Rattle.std.specs.Prelude.{ℕ, suc, ◌*◌, ◌+◌, ◌<◌, ◌≤◌, Bool, List};
ghost use Rattle.quorum_model.specs.Monitors.{Monitors};
ghost use Rattle.quorum_model.specs.World.{Event};
ghost use Rattle.quorum_stays.specs.Reading.{ClocksGoOn};
ghost use Rattle.quorum_stays.specs.SteppingDown.{EachIs};
ghost use Rattle.quorum_timed.specs.Begins.{IsQuick};
ghost use Rattle.quorum_timed.specs.Timed.{Leads, Pace, Timed};
ghost use Rattle.timed_election.specs.Election.{CanElect, Election, Elects, IsWonBy};
ghost use Rattle.timed_election.specs.Joining.{Deserted, JoinBy, Parted};
ghost use Rattle.timed_election.specs.Keeping.{IsWonWithin};
ghost use Rattle.timed_election.specs.Probing.{CanAnswer, GoesOnBy, Probes};

/// A member of a majority probes for no more than twice the delay of messages, if this is less than the time after which
/// it probes anew. No member may be down or in a full synchronization meanwhile.
pub fn law_probing_ends()
    ensures { (ms : Monitors) (q : List Bool) (pace : Pace) (i at : ℕ) (t last : Timed) (more : List (ℕ × Event))
        → 2 * pace.delay < 2000 → Probes ms pace i at q t → (run : Leads ms q pace t more last)
        → EachIs ms q pace (CanAnswer q) t more last run → at + 2 * pace.delay < last.time
        → GoesOnBy ms q pace t more i (at + 2 * pace.delay) }
{}

/// The members of a majority that follow lost leaders join one election in time. Whose lease ends first probes, and calls
/// the election when it hears that the others are in a quorum or that a majority isn't. Each other member joins when it
/// hears the call, or calls by itself. All take part within two delays and `late` after the time by which each lease timer
/// ends.
pub fn law_members_join()
    ensures { (ms : Monitors) (q : List Bool) (pace : Pace) (best epoch by : ℕ) (t last : Timed)
        (more : List (ℕ × Event)) → IsQuick pace → 2 * pace.delay < 2000 → CanElect ms q best
        → Deserted q pace epoch by t → Leads ms q pace t more last → ClocksGoOn q pace last.time
        → by + pace.late + 2 * pace.delay < last.time
        → JoinBy ms q pace best (suc epoch) t last more (by + pace.late + 2 * pace.delay) }
{}

/// The members of a majority also join one election if one of them led the others, and now probes. It calls the election
/// when it hears that the others are in a quorum or that a majority isn't. Each other member joins when it hears the call.
/// So all take part within three delays.
pub fn law_parted_members_join()
    ensures { (ms : Monitors) (q : List Bool) (pace : Pace) (best leader epoch : ℕ) (t last : Timed)
        (more : List (ℕ × Event)) → IsQuick pace → 2 * pace.delay < 2000 → CanElect ms q best
        → Parted ms q pace leader epoch t → Leads ms q pace t more last → ClocksGoOn q pace last.time
        → t.time + 3 * pace.delay < last.time
        → JoinBy ms q pace best (suc epoch) t last more (t.time + 3 * pace.delay) }
{}

/// An election ends in time if all members of a majority joined it within three delays. The member that outranks the
/// others wins it within 5 seconds and `late` after its timer was armed, leads all members, and sends each of them a
/// VICTORY and a COLLECT.
pub fn law_election_ends()
    ensures { (ms : Monitors) (q : List Bool) (pace : Pace) (E : Election) (t last : Timed) (more : List (ℕ × Event))
        → IsQuick pace → Elects ms q pace E t → Leads ms q pace t more last → ClocksGoOn q pace last.time
        → E.by + 5000 + pace.late < last.time → IsWonBy ms q pace E t more (E.by + 5000 + pace.late) }
{}

/// Such an election leaves nothing else behind, if a message takes less than a second and the election has just begun.
/// When it is won, no member but the winner has changed its store since, and of the election only calls and
/// acknowledgements are under way.
pub fn law_election_leaves_votes()
    ensures { (ms : Monitors) (q : List Bool) (pace : Pace) (E : Election) (t last : Timed) (more : List (ℕ × Event))
        → IsQuick pace → pace.delay < 1000 → Elects ms q pace E t → t.time ≤ E.by → Leads ms q pace t more last
        → ClocksGoOn q pace last.time → E.by + 5000 + pace.late < last.time
        → IsWonWithin ms q pace E t last more (E.by + 5000 + pace.late) }
{}
