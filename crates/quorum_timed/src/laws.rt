ghost use Rattle.std.specs.Prelude.{ℕ, ◌≡◌, ◌≤◌, ◌<◌, List, IfSome, Ok, Some, suc, Bool, map, ◌+◌, true, IsSomeAnd, ⊤};
ghost use Rattle.mon_bytes.specs.declared.entry.Entry.{Entry};
ghost use Rattle.mon_msg.specs.Protocol.Course.{Course};
ghost use Rattle.mon_msg.specs.Protocol.Readings.{Readings};
ghost use Rattle.mon_msg.specs.Protocol.State.{State, booting};
ghost use Rattle.mon_msg.specs.Protocol.Table.{react};
ghost use Rattle.mon_msg.specs.declared.input.Input.TheVariants as input;
ghost use Rattle.mon_msg.specs.declared.input.Input.{Input};
ghost use Rattle.mon_msg.specs.declared.view.Me.{Me};
ghost use Rattle.quorum_model.specs.Monitors.{Monitors, me_of};
ghost use Rattle.quorum_model.specs.Runs.{run, run_from};
ghost use Rattle.quorum_model.specs.World.{Event};
ghost use Rattle.mon_types.specs.Ranks.{has};
ghost use Rattle.quorum_timed.specs.Begins.{Begins, at_rest};
ghost use Rattle.quorum_timed.specs.Times.{latest};
ghost use Rattle.quorum_timed.specs.Waiting.{Waits};
ghost use Rattle.quorum_timed.specs.Timed.{Comes, GoesOn, IsRequest, Leads, MayBe, Pace, Timed};

/// A monitor that starts waits for a timer, and so it does after each event, if its quorum has two or more monitors.
/// The timer of its phase is armed, and ends at most that timer's length after the latest time that the monitor saw.
/// This holds whatever comes, forged messages too, and whatever the store holds. A leader of itself alone needs no
/// timer.
pub fn law_event_waits()
    ensures starts { (me : Me) (shared : List Entry) (latest now : ℕ) (w : Readings) (rank : ℕ) (y : Course)
        → 1 < me.member.monitors → now ≤ latest → react me shared now w (booting rank) input.Start ≡ Ok y
        → Waits me latest y.state }
    ensures goes_on { (me : Me) (shared : List Entry) (latest now : ℕ) (w : Readings) (s : State) (came : Input)
        (y : Course) → 1 < me.member.monitors → now ≤ latest → Waits me latest s
        → react me shared now w s came ≡ Ok y → Waits me latest y.state }
{}

/// After every run of two or more monitors under any rule, crashes included, each monitor that is up waits for a timer.
/// The timer of its phase is armed, and ends at most that timer's length after the latest time of the run. So a monitor
/// that hears nothing more does something by itself: within 10 seconds, or within 60 if it synchronizes. A leader of
/// itself alone needs no timer.
pub fn law_waits()
    ensures { (ms : Monitors) (events : List Event) → 1 < ms.count → (i : ℕ) (me : Me) → me_of ms i ≡ Some me
        → IfSome ((run ms events).state i) (Waits me (latest events)) }
{}

/// What events lead to in time is the world that the run of these events makes. So each law of runs holds of timed
/// runs.
pub fn law_leads_runs()
    ensures { (ms : Monitors) (q : List Bool) (pace : Pace) (t last : Timed) (more : List (ℕ × Event))
        → Leads ms q pace t more last → last.world ≡ run_from ms t.world (map (λ m. m.1) more) }
{}

/// No timed run is stuck, unless a number runs out or a store becomes full. If nothing can come now but what clients
/// ask, time may go on by a millisecond. So whatever is overdue can come.
pub fn law_time_goes_on()
    ensures { (ms : Monitors) (q : List Bool) (pace : Pace) (t : Timed) → GoesOn ms t.world
        → ((next : Timed) (e : Event) → Comes ms q pace t next e → IsRequest e) → MayBe ms q pace t (suc t.time) }
{}

/// A timed run can begin after every run of two or more monitors. The members have to be up, and no event of the run
/// may have a later time than `since` on the clock of any member.
pub fn law_timed_run_begins()
    ensures { (ms : Monitors) (events : List Event) (q : List Bool) (pace : Pace) → 1 < ms.count
        → ((i : ℕ) → has q i ≡ true
        → IsSomeAnd ((run ms events).state i) (λ s. ⊤) × (latest events ≤ pace.since + pace.clock i))
        → Begins ms q pace (at_rest pace (run ms events)) }
{}
