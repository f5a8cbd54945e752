ghost use Rattle.std.specs.Prelude.{ℕ, ◌*◌, ◌+◌, ◌<◌, ◌≡◌, ◌≤◌, Bool, IsSomeAnd, None, Some, [], false, true, List, Ok, ◌∷◌, ◌⊎◌};
ghost use Rattle.mon_lease.specs.Lease.{stands};
ghost use Rattle.mon_msg.specs.Protocol.Readings.{readings_of};
ghost use Rattle.mon_msg.specs.Protocol.State.{lease_of};
ghost use Rattle.mon_types.specs.Ranks.{has};
ghost use Rattle.mon_wire.specs.declared.phase.Phase.TheVariants as phase;
ghost use Rattle.mon_wire.specs.declared.request.Request.{Request};
ghost use Rattle.mon_wire.specs.declared.request.Session.{Session};
ghost use Rattle.quorum_model.specs.Happens.{happens};
ghost use Rattle.quorum_model.specs.Monitors.{Monitors};
ghost use Rattle.quorum_model.specs.World.{Arrives, Client, Event, World};
ghost use Rattle.quorum_stays.specs.Leaving.{FollowMembers};
ghost use Rattle.quorum_stays.specs.Reading.{ClocksGoOn, IsAnswered, LeasesStand, Reads};
ghost use Rattle.quorum_stays.specs.Serving.{Attends, Counts, IsServed, NothingWaits, Writes, answer_time};
ghost use Rattle.std.specs.List.{AllByRecursion};
ghost use Rattle.quorum_stays.specs.Steady.{Begun, Reign, Round, Steady};
ghost use Rattle.quorum_stays.specs.SteppingDown.{BringsNone, EachIs, StepsDown};
ghost use Rattle.quorum_timed.specs.Begins.{Begins, IsQuick};
ghost use Rattle.quorum_timed.specs.Timed.{Leads, MayBe, Pace, Timed};

/// A quorum that is led stays led by the same leader in the same epoch, whatever clients ask, as long as messages and
/// timers are punctual. Its last version never falls, and while it stays the same, so does the time of the last commit.
pub fn law_stays_led()
    ensures { (ms : Monitors) (q : List Bool) (pace : Pace) (reign : Reign) (r : Round) (t last : Timed)
        (more : List (ℕ × Event)) → IsQuick pace → Steady ms q pace reign r t → Leads ms q pace t more last
        → ClocksGoOn q pace last.time
        → (later : Round) × Steady ms q pace reign later last × (r.version ≤ later.version)
        × (later.version ≡ r.version → later.committed ≡ r.committed) }
{}

/// In a quorum that is led so, each value that the leader begins is committed within twice the delay of messages.
pub fn law_values_are_committed()
    ensures { (ms : Monitors) (q : List Bool) (pace : Pace) (reign : Reign) (r : Round) (b : Begun) (t last : Timed)
        (more : List (ℕ × Event)) → IsQuick pace → Steady ms q pace reign r t → r.next ≡ Some b
        → Leads ms q pace t more last → ClocksGoOn q pace last.time → b.at + 2 * pace.delay < last.time
        → (later : Round) × Steady ms q pace reign later last × (r.version < later.version) }
{}

/// Such a quorum answers each command in time, whatever other clients ask: the leader within `answer_time` after it is
/// asked, and a peon within two delays more. The command is committed, or its service refuses it, or it is too long, or
/// too many wait (`IsAnswer`). At first the next one of the commands that wait at the leader is proposed soon
/// (`Attends`), and the peon's commands are numbered so that the leader takes each (`Counts`). Both hold at each later
/// time.
pub fn law_serves()
    ensures attends { (ms : Monitors) (q : List Bool) (pace : Pace) (reign : Reign) (r : Round) (t last : Timed)
        (more : List (ℕ × Event)) → IsQuick pace → Steady ms q pace reign r t → Attends pace reign r t
        → Leads ms q pace t more last → ClocksGoOn q pace last.time
        → (later : Round) × Steady ms q pace reign later last × Attends pace reign later last }
    ensures counts { (ms : Monitors) (q : List Bool) (pace : Pace) (reign : Reign) (r : Round) (f : ℕ) (t last : Timed)
        (more : List (ℕ × Event)) → IsQuick pace → Steady ms q pace reign r t → has q f ≡ true
        → (f ≡ reign.leader → ⊥) → Counts q reign f t → Leads ms q pace t more last → ClocksGoOn q pace last.time
        → Counts q reign f last }
    ensures leader { (ms : Monitors) (q : List Bool) (pace : Pace) (reign : Reign) (r : Round) (t last : Timed)
        (u : ℕ) (session : Session) (request : Request) (more : List (ℕ × Event)) → IsQuick pace
        → Steady ms q pace reign r t → Attends pace reign r t → (Reads request → ⊥)
        → Leads ms q pace t
        ((u, Arrives (Client reign.leader (u + pace.clock reign.leader) session request)) ∷ more) last
        → ClocksGoOn q pace last.time → u + answer_time pace < last.time
        → IsServed t.world last.world reign.leader session }
    ensures peons { (ms : Monitors) (q : List Bool) (pace : Pace) (reign : Reign) (r : Round) (f : ℕ) (t last : Timed)
        (u : ℕ) (session : Session) (request : Request) (more : List (ℕ × Event)) → IsQuick pace
        → Steady ms q pace reign r t → Attends pace reign r t → has q f ≡ true → (f ≡ reign.leader → ⊥)
        → Counts q reign f t → (Reads request → ⊥)
        → Leads ms q pace t ((u, Arrives (Client f (u + pace.clock f) session request)) ∷ more) last
        → ClocksGoOn q pace last.time → u + 2 * pace.delay + answer_time pace < last.time
        → IsServed t.world last.world f session }
{}

/// If nobody writes in a quorum that is led so, nothing is begun, and the last version and the time of its commit stay
/// the same. No command waits at the leader or is on its way to it at first, and no client asks for one.
pub fn law_nothing_is_begun()
    ensures { (ms : Monitors) (q : List Bool) (pace : Pace) (reign : Reign) (r : Round) (t last : Timed)
        (more : List (ℕ × Event)) → IsQuick pace → Steady ms q pace reign r t → r.next ≡ None → NothingWaits q reign t
        → Leads ms q pace t more last → AllByRecursion (λ m. Writes m.1 → ⊥) more → ClocksGoOn q pace last.time
        → (later : Round) × Steady ms q pace reign later last × (later.next ≡ None) × (later.version ≡ r.version)
        × (later.committed ≡ r.committed) × NothingWaits q reign last }
{}

/// In a quorum that is led so, the lease of each member is valid while no value is in progress, from one delay after
/// the last commit on. So it is at all times while no value is begun, since the time of the last commit then stays the
/// same (`law_stays_led`).
pub fn law_leases_stand()
    ensures { (ms : Monitors) (q : List Bool) (pace : Pace) (reign : Reign) (r : Round) (t : Timed)
        → IsQuick pace → Steady ms q pace reign r t → MayBe ms q pace t t.time → r.next ≡ None
        → r.committed + pace.delay < t.time → LeasesStand q pace t }
{}

/// A member of such a quorum answers each read at once while the leases are valid, if anything was committed. It shows
/// what its store keeps.
pub fn law_reads_are_answered()
    ensures { (ms : Monitors) (q : List Bool) (pace : Pace) (reign : Reign) (r : Round) (t : Timed)
        → Steady ms q pace reign r t → LeasesStand q pace t → (i : ℕ) → has q i ≡ true
        → 0 < (readings_of (t.world.store i)).last → (session : Session) (request : Request) → Reads request
        → (after : World) → happens ms t.world (Arrives (Client i (t.time + pace.clock i) session request)) ≡ Ok after
        → IsAnswered t.world after i session request }
{}

/// Nobody follows a lost leader for long. From 10 seconds and `late` after `since` on no member follows a monitor
/// outside of the set, since nothing comes from it. This holds of any members in any state, whatever they send and
/// clients ask.
pub fn law_lost_leader_is_left()
    ensures { (ms : Monitors) (q : List Bool) (pace : Pace) (t last : Timed) (more : List (ℕ × Event)) → 1 < ms.count
        → ((i : ℕ) → has q i ≡ true → i < ms.count) → Begins ms q pace t → Leads ms q pace t more last
        → pace.since + 10000 + pace.late < last.time → FollowMembers q last.world }
{}

/// A leader that lost a monitor of its quorum steps down in time: at some time up to this bound it isn't active or
/// updating, or its quorum lacks the monitor. The bound is 30 seconds after `since` whatever it does at first, and 23
/// seconds if it is active. It is 13 seconds if no command waits at it and none arrives at it. To each of them three
/// latenesses of timers are added, or two in the last case. This holds of members in any state, whatever they send.
pub fn law_leader_steps_down()
    ensures serving { (ms : Monitors) (q : List Bool) (pace : Pace) (t last : Timed) (more : List (ℕ × Event)) (i m : ℕ)
        → 1 < ms.count → ((i : ℕ) → has q i ≡ true → i < ms.count) → has q i ≡ true → has q m ≡ false → m < ms.count
        → Begins ms q pace t → Leads ms q pace t more last → pace.since + 30000 + 3 * pace.late < last.time
        → StepsDown ms q pace t more i m (pace.since + 30000 + 3 * pace.late) }
    ensures active { (ms : Monitors) (q : List Bool) (pace : Pace) (t last : Timed) (more : List (ℕ × Event)) (i m : ℕ)
        → 1 < ms.count → ((i : ℕ) → has q i ≡ true → i < ms.count) → has q i ≡ true → has q m ≡ false → m < ms.count
        → Begins ms q pace t → Leads ms q pace t more last
        → IsSomeAnd (t.world.state i) (λ s. s.phase ≡ phase.Active)
        → pace.since + 23000 + 3 * pace.late < last.time
        → StepsDown ms q pace t more i m (pace.since + 23000 + 3 * pace.late) }
    ensures idle { (ms : Monitors) (q : List Bool) (pace : Pace) (t last : Timed) (more : List (ℕ × Event)) (i m : ℕ)
        → 1 < ms.count → ((i : ℕ) → has q i ≡ true → i < ms.count) → has q i ≡ true → has q m ≡ false → m < ms.count
        → Begins ms q pace t → (run : Leads ms q pace t more last)
        → IsSomeAnd (t.world.state i) (λ s. (s.phase ≡ phase.Active) × (s.clients.queue ≡ []))
        → EachIs ms q pace (BringsNone i) t more last run → pace.since + 13000 + 2 * pace.late < last.time
        → StepsDown ms q pace t more i m (pace.since + 13000 + 2 * pace.late) }
{}

/// Such a leader shows no old map for long. From 18 seconds and two latenesses after `since` on its lease isn't valid,
/// unless it stepped down before. It is active at first, and its lease is no longer than one that is extended then.
/// Clients may ask what they want: a command that it begins just before 13 seconds lets it serve for 10 more, but not
/// extend its lease.
pub fn law_lease_of_leader_ends()
    ensures { (ms : Monitors) (q : List Bool) (pace : Pace) (t last : Timed) (more : List (ℕ × Event)) (i m : ℕ)
        → 1 < ms.count → ((i : ℕ) → has q i ≡ true → i < ms.count) → has q i ≡ true → has q m ≡ false → m < ms.count
        → Begins ms q pace t → Leads ms q pace t more last
        → IsSomeAnd (t.world.state i) (λ s. (s.phase ≡ phase.Active)
        × ((end : ℕ) → s.leader.lease ≡ Some end → end ≤ pace.since + pace.clock i + 5000))
        → pace.since + 18000 + 2 * pace.late < last.time
        → StepsDown ms q pace t more i m (pace.since + 23000 + 3 * pace.late)
        ⊎ IsSomeAnd (last.world.state i) (λ s. stands (lease_of s) (last.time + pace.clock i) ≡ false) }
{}
