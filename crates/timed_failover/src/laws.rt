ghost use Rattle.std.specs.List.{AllByRecursion};
ghost use Rattle.std.specs.Prelude.{ℕ, ◌+◌, ◌<◌, ◌^◌, ◌≡◌, ◌≤◌, Bool, List, None, Some, length, suc, ◌*◌};
ghost use Rattle.mon_msg.specs.Protocol.State.{State};
ghost use Rattle.mon_tx.specs.declared.op.Op.{Op};
ghost use Rattle.quorum_laws.specs.Accepting.{readings_at};
ghost use Rattle.quorum_model.specs.Events.{AllFit};
ghost use Rattle.quorum_model.specs.Monitors.{Monitors};
ghost use Rattle.quorum_model.specs.Reached.{Reached};
ghost use Rattle.quorum_model.specs.Runs.{run};
ghost use Rattle.quorum_model.specs.World.{Event};
ghost use Rattle.quorum_stays.specs.Reading.{ClocksGoOn};
ghost use Rattle.quorum_stays.specs.Serving.{NothingWaits, Writes};
ghost use Rattle.quorum_stays.specs.Steady.{Reign, Round, Steady};
ghost use Rattle.quorum_timed.specs.Begins.{Begins, IsQuick};
ghost use Rattle.quorum_timed.specs.Timed.{Leads, Pace, Timed};
ghost use Rattle.timed_election.specs.Election.{CanElect, Election};
ghost use Rattle.timed_election.specs.Joining.{Deserted};
ghost use Rattle.timed_failover.specs.Collecting.{AreBetween, IsAsked, IsElected, IsHeardBy, Query};
ghost use Rattle.timed_failover.specs.Failover.{IsPartedBy, IsReplacedBy, IsWithout, NoCallIsUnderWay, SteadyBy, from_time};
ghost use Rattle.timed_failover.specs.Newest.{IsNewest};
ghost use Rattle.timed_failover.specs.Reached.{IsAsLed};
ghost use Rattle.timed_failover.specs.Settling.{IsSettledBy, Opens, Settles, Settling, opening};

/// A leader that serves under the newest number has the whole log. Its number is the newest if the members of some
/// majority, all in its quorum, promised no greater one. This holds after every run of two or more monitors under any
/// rule, crashes included.
pub fn law_leader_has_the_log()
    ensures { (ms : Monitors) (events : List Event) → AllFit ms.count events → 1 < ms.count → (i : ℕ) (s : State)
        → (run ms events).state i ≡ Some s → IsNewest ms.count (run ms events) s
        → (readings_at (run ms events) i).last ≡ length (run ms events).log }
{}

/// In a timed run whose quorum is led, the leader has the whole log. No member is in a full synchronization, or lacks more
/// than one version.
pub fn law_led_quorum_has_the_log()
    ensures { (ms : Monitors) (q : List Bool) (pace : Pace) (reign : Reign) (r : Round) (t : Timed) → Reached ms t.world
        → Steady ms q pace reign r t → IsAsLed q reign t.world }
{}

/// A quorum that is led and loses its leader is deserted by it, if no call for an election is under way. The lease timer of
/// each other member ends within 10 seconds after that. None of them needs a copy of another's versions, and no call or
/// answer to a probe is under way.
pub fn law_lost_leader_deserts()
    ensures { (ms : Monitors) (full q : List Bool) (pace : Pace) (earlier : ℕ) (reign : Reign) (r : Round) (t : Timed)
        → Reached ms t.world → Steady ms full (from_time earlier pace) reign r t → IsWithout full q reign.leader
        → Begins ms q pace t → NoCallIsUnderWay q t → suc reign.epoch ≤ 2 ^ 62
        → Deserted q pace reign.epoch (pace.since + 10000) t }
{}

/// A value that a new leader found is committed within two delays after it is begun, if the leader began it within four
/// delays after its victory. From then on the quorum is led (`Steady`), and its last version has that value. Clients may
/// ask what they want meanwhile.
pub fn law_found_value_is_committed()
    ensures { (ms : Monitors) (q : List Bool) (pace : Pace) (reign : Reign) (x : Settling) (t last : Timed)
        (more : List (ℕ × Event)) → IsQuick pace → 4 * pace.delay ≤ 3000 → Settles ms q pace reign x t
        → Leads ms q pace t more last → ClocksGoOn q pace last.time → x.found.at + 2 * pace.delay < last.time
        → IsSettledBy ms q pace reign x t last more (x.found.at + 2 * pace.delay) }
{}

/// A new leader that found nothing leads its quorum as soon as it gave the first leases, if that is within four delays
/// after its victory. A member may lack the last version, if that is under way to it.
pub fn law_first_leases_lead()
    ensures { (ms : Monitors) (q : List Bool) (pace : Pace) (reign : Reign) (version : ℕ) (value : List Op) (won : ℕ)
        (t : Timed) → 4 * pace.delay ≤ 3000 → Opens ms q pace reign version value won t
        → Steady ms q pace reign (opening version value won t.time) t }
{}

/// A lost leader is replaced in time. If a quorum that is led loses its leader, one of the others has won an election and
/// leads all of them by 15 seconds after that, two delays and twice `late`, whatever clients ask. It is the lowest rank
/// among them that may lead.
pub fn law_lost_leader_is_replaced()
    ensures { (ms : Monitors) (full q : List Bool) (pace : Pace) (earlier best : ℕ) (reign : Reign) (r : Round)
        (t last : Timed) (more : List (ℕ × Event)) → IsQuick pace → pace.delay < 1000 → Reached ms t.world
        → Steady ms full (from_time earlier pace) reign r t → IsWithout full q reign.leader → CanElect ms q best
        → Begins ms q pace t → NoCallIsUnderWay q t → suc reign.epoch ≤ 2 ^ 62 → Leads ms q pace t more last
        → ClocksGoOn q pace last.time → pace.since + 15000 + 2 * pace.delay + 2 * pace.late < last.time
        → IsReplacedBy ms q pace best (suc reign.epoch) t last more
        (pace.since + 15000 + 2 * pace.delay + 2 * pace.late) }
{}

/// A quorum that is led and loses a peon parts from its leader in time, if no client writes: by 13 seconds after that and
/// twice `late` the leader ceases to lead, since it lacks an acknowledgement, and probes. The other members still follow
/// it then. At first no value is in progress, no command waits at the leader or is on its way to it, and the leader's
/// renewal of the leases isn't overdue.
pub fn law_lost_peon_parts()
    ensures { (ms : Monitors) (full q : List Bool) (pace : Pace) (earlier best lost : ℕ) (reign : Reign) (r : Round)
        (t last : Timed) (more : List (ℕ × Event)) → IsQuick pace → 4 * pace.delay ≤ 3000 → Reached ms t.world
        → Steady ms full (from_time earlier pace) reign r t → pace.since ≤ r.latest + 3000 + pace.late
        → IsWithout full q lost → (lost ≡ reign.leader → ⊥) → CanElect ms q best → Begins ms q pace t
        → NoCallIsUnderWay q t → r.next ≡ None → NothingWaits q reign t → suc reign.epoch ≤ 2 ^ 62
        → Leads ms q pace t more last → AllByRecursion (λ m. Writes m.1 → ⊥) more → ClocksGoOn q pace last.time
        → pace.since + 13000 + 2 * pace.late < last.time
        → IsPartedBy ms q pace reign t last more (pace.since + 13000 + 2 * pace.late) }
{}

/// A new leader that asks its quorum what was accepted hears all members within two delays after its victory, if each
/// answer fits one message. Then it gave the first leases, or proposes the value that it found. Clients may ask what they
/// want meanwhile.
pub fn law_new_leader_hears_all()
    ensures { (ms : Monitors) (q : List Bool) (pace : Pace) (x : Query) (t last : Timed) (more : List (ℕ × Event))
        → IsQuick pace → IsAsked ms q pace x t → AreBetween q t → Leads ms q pace t more last
        → ClocksGoOn q pace last.time → x.won + 2 * pace.delay < last.time
        → IsHeardBy ms q pace x t last more (x.won + 2 * pace.delay) }
{}

/// Such a leader serves within four delays after its victory: by then its quorum is led (`Steady`). It stays led
/// (`law_stays_led`).
pub fn law_new_leader_serves()
    ensures { (ms : Monitors) (q : List Bool) (pace : Pace) (x : Query) (t last : Timed) (more : List (ℕ × Event))
        → IsQuick pace → 4 * pace.delay ≤ 3000 → IsAsked ms q pace x t → AreBetween q t → Leads ms q pace t more last
        → ClocksGoOn q pace last.time → x.won + 4 * pace.delay < last.time
        → SteadyBy ms q pace x.election.best (suc x.election.epoch) t last more (x.won + 4 * pace.delay) }
{}

/// A member that won an election in time serves within four delays after that, if no member lacks more than one version
/// and each answer to its COLLECT fits one message (`IsElected`). Clients may ask what they want meanwhile.
pub fn law_winner_serves()
    ensures { (ms : Monitors) (q : List Bool) (pace : Pace) (E : Election) (version : ℕ) (value : List Op)
        (t last : Timed) (more : List (ℕ × Event)) → IsQuick pace → 4 * pace.delay ≤ 3000
        → IsElected ms q pace E version value t → Leads ms q pace t more last → ClocksGoOn q pace last.time
        → t.time + 4 * pace.delay < last.time
        → SteadyBy ms q pace E.best (suc E.epoch) t last more (t.time + 4 * pace.delay) }
{}

/// A quorum that loses one member is led again in time (`Steady`), if the others are a majority and one of them may lead.
/// From `since` on that member takes no step, and nothing of it arrives. If it was the leader, the lowest rank of the
/// others that may lead leads all of them within 15 seconds, six delays and twice `late`, whatever clients ask. If it was
/// another member, this holds within 18 seconds, seven delays and three times `late`, if no client writes. In that case no
/// value may be in progress at first, no command may wait at the leader or be on its way to it, and the leader's renewal
/// of the leases may not be overdue. The quorum stays led (`law_stays_led`), so it may lose a member again. A set of
/// members has a test for each of the 15 ranks.
pub fn law_failover()
    ensures leader_lost { (ms : Monitors) (full q : List Bool) (pace : Pace) (earlier best : ℕ) (reign : Reign)
        (r : Round) (t last : Timed) (more : List (ℕ × Event)) → IsQuick pace → 4 * pace.delay ≤ 3000
        → Reached ms t.world → Steady ms full (from_time earlier pace) reign r t → IsWithout full q reign.leader
        → CanElect ms q best → length q ≡ 15 → Begins ms q pace t → NoCallIsUnderWay q t → suc reign.epoch ≤ 2 ^ 62
        → suc (suc r.version) ≤ 2 ^ 62 → Leads ms q pace t more last → ClocksGoOn q pace last.time
        → pace.since + 15000 + 6 * pace.delay + 2 * pace.late < last.time
        → SteadyBy ms q pace best (suc (suc reign.epoch)) t last more
        (pace.since + 15000 + 6 * pace.delay + 2 * pace.late) }
    ensures peon_lost { (ms : Monitors) (full q : List Bool) (pace : Pace) (earlier best lost : ℕ)
        (reign : Reign) (r : Round) (t last : Timed) (more : List (ℕ × Event)) → IsQuick pace → 4 * pace.delay ≤ 3000
        → Reached ms t.world → Steady ms full (from_time earlier pace) reign r t → r.next ≡ None → NothingWaits q reign t
        → pace.since ≤ r.latest + 3000 + pace.late → IsWithout full q lost → (lost ≡ reign.leader → ⊥)
        → Begins ms q pace t → NoCallIsUnderWay q t → CanElect ms q best → length q ≡ 15 → suc reign.epoch ≤ 2 ^ 62
        → suc (suc r.version) ≤ 2 ^ 62 → Leads ms q pace t more last → AllByRecursion (λ m. Writes m.1 → ⊥) more
        → ClocksGoOn q pace last.time → pace.since + 18000 + 7 * pace.delay + 3 * pace.late < last.time
        → SteadyBy ms q pace best (suc (suc reign.epoch)) t last more
        (pace.since + 18000 + 7 * pace.delay + 3 * pace.late) }
{}
