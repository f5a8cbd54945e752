ghost use Rattle.std.specs.Prelude.{◌≡◌, ℕ, ◌≤◌, ◌^◌, List, length, Ok, false};
ghost use Rattle.log_model.specs.LogOfValues.{AllValues};
ghost use Rattle.mon_kv.specs.Readers.{size_of, most_size};
ghost use Rattle.mon_msg.specs.Fold.{fold};
ghost use Rattle.mon_msg.specs.Protocol.Reaction.{Reaction};
ghost use Rattle.mon_msg.specs.Protocol.Readings.{readings_of};
ghost use Rattle.mon_msg.specs.declared.input.Input.{Input};
ghost use Rattle.mon_tx.specs.Keys.{shared};
ghost use Rattle.mon_tx.specs.Map.{Store, apply};
ghost use Rattle.quorum_model.specs.Events.{AllFit, PlainFits};
ghost use Rattle.quorum_model.specs.Happens.{happens, moved};
ghost use Rattle.quorum_model.specs.Meets.{Reacts, meets};
ghost use Rattle.quorum_model.specs.Monitors.{Monitors};
ghost use Rattle.quorum_model.specs.Runs.{run};
ghost use Rattle.quorum_model.specs.World.{Arrives, Event, Plain};
ghost use Rattle.calm_sizes.specs.Sizes.{OwnShort, longest};

/// The fold of a log of values is small, however long the log is: at most 172,700,000 bytes. A store whose shared part
/// is such a fold is never full, if no value of the monitor's own is longer than a transaction may be.
pub fn law_never_full()
    ensures fold { (log : List (List ℕ)) → length log ≤ 2 ^ 62 → AllValues log → (c : ℕ) → c ≤ length log
        → size_of (fold log c) ≤ 172700000 }
    ensures store { (log : List (List ℕ)) → length log ≤ 2 ^ 62 → AllValues log → (c : ℕ) → c ≤ length log
        → (m : Store) → shared m ≡ fold log c → OwnShort longest m → size_of m ≤ most_size }
{}

/// In every run of any monitors under any rule, crashes included, no event finds the store full at a monitor that is in
/// no full synchronization afterwards and has no value of its own that is longer than a transaction may be.
pub fn law_goes_on()
    ensures { (ms : Monitors) (events : List Event) → AllFit ms.count events → (p : Plain) → PlainFits ms.count p
        → (i : ℕ) (came : Input) (r : Reaction) → meets ms (run ms events) p ≡ Reacts i came (Ok r)
        → (readings_of (apply r.transaction ((run ms events).store i))).marked ≡ false
        → OwnShort longest (apply r.transaction ((run ms events).store i))
        → happens ms (run ms events) (Arrives p) ≡ Ok (moved (run ms events) p i r) }
{}
