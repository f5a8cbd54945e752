ghost use Rattle.std.specs.Prelude.{◌≡◌, ℕ, suc, ◌+◌, ◌<◌, ◌≤◌, ◌^◌, false, List, [], ◌∷◌, ◌++◌, length};
ghost use Rattle.std.specs.List.{AllByRecursion};
ghost use Rattle.mon_bytes.specs.declared.entry.KeyPlace.TheVariants as key_place;
ghost use Rattle.mon_tx.specs.declared.op.Op.{Op};
ghost use Rattle.mon_tx.specs.Map.{Store};
ghost use Rattle.mon_tx.specs.Text.{text};
ghost use Rattle.mon_msg.specs.Fold.{fold};
ghost use Rattle.mon_msg.specs.Protocol.Changes.{Change, Learn, Last};
ghost use Rattle.mon_msg.specs.Protocol.Learning.{learn_changes};
ghost use Rattle.mon_msg.specs.Protocol.Readings.{Readings, readings_of};
ghost use Rattle.mon_msg.specs.Protocol.Records.{run_from};
ghost use Rattle.mon_msg.specs.Protocol.State.{State};
ghost use Rattle.mon_msg.specs.Protocol.Synchronizing.{floor_of};
ghost use Rattle.mon_msg.specs.declared.view.Me.{Me};
ghost use Rattle.log_model.specs.LogOfValues.{AllValues, IsValue};
ghost use Rattle.log_model.specs.Windows.{Keeps};
ghost use Rattle.log_copies.specs.Copies.{IsFuzzyCopy, catch_up, shared_with_records};
ghost use Rattle.log_copies.specs.Synchronizing.{IsShaped, Synchronizes, IsSynchronized};
ghost use Rattle.log_copies.specs.Versions.{HasVersions, values_from, store_after, IsOwnChange};

/// A copy that caught up is the log's fold. Let a store be copied while its log of values went from version s to
/// version e. Once the versions after s up to e are applied to the copy, it is the log's fold at e, except for a
/// monitor's own keys.
pub fn law_caught_up()
    ensures { (log : List (List ℕ)) → length log ≤ 2 ^ 62 → AllValues log → (s e : ℕ) → s ≤ e → e ≤ length log → (copy : Store)
        → IsFuzzyCopy log s e key_place.Done copy → shared_with_records (catch_up log s e copy) ≡ fold log e }
{}

/// A monitor that has the first versions of a log of values, and learns the values of the next ones, has these versions
/// too. Let a monitor have the whole log and commit a command's value that was made over what the log keeps. It then
/// has the log with that version, which is again a log of values. A monitor's own changes, also a vote for the next
/// version, don't change which versions it has. The values that it sends from a version on are the log's, in order.
pub fn law_learned()
    ensures learned { (log : List (List ℕ)) → length log ≤ 2 ^ 62 → AllValues log → (c : ℕ) (m : Store) → HasVersions log c m
        → (count : ℕ) → suc c + count ≤ length log
        → HasVersions log (suc c + count) (store_after (learn_changes (suc c) (values_from log (suc c) (suc count)) ++ Last (suc c + count) ∷ []) m) }
    ensures committed { (log : List (List ℕ)) → length log < 2 ^ 62 → AllValues log → (w : Readings) → Keeps log (length log) w → w.last ≡ length log
        → (value : List Op) → IsValue w value → (m : Store) → HasVersions log (length log) m
        → AllValues (log ++ text value ∷ [])
        × HasVersions (log ++ text value ∷ []) (suc (length log)) (store_after (Learn (suc (length log)) value ∷ Last (suc (length log)) ∷ []) m) }
    ensures kept { (log : List (List ℕ)) (c : ℕ) (m : Store) → HasVersions log c m → (changes : List Change)
        → AllByRecursion (IsOwnChange c) changes → HasVersions log c (store_after changes m) }
    ensures told { (log : List (List ℕ)) → length log ≤ 2 ^ 62 → AllValues log → (c : ℕ) (m : Store) → HasVersions log c m → (v : ℕ)
        → run_from (readings_of m).record_of c (suc v) ≡ values_from log (suc v) (length (run_from (readings_of m).record_of c (suc v))) }
{}

/// A full synchronization of one monitor among several, from monitors of one log of values, is finished once the mark
/// is gone. This holds however often it begins again, from whichever monitors it takes cookies and chunks, whatever
/// else comes, and whenever the monitor crashes and starts. When it is finished, the monitor's shared part is the log's
/// fold at its last version. That version isn't below the floor from when the synchronization began. The promise, the
/// last proposal number and the epoch are those from before. The store must have no other keys at first than the
/// monitor's own and those of the log and of the services. The store of every monitor of the log is such a store, and
/// so is what the synchronization leaves.
pub fn law_synchronized()
    ensures finished { (log : List (List ℕ)) → length log ≤ 2 ^ 62 → AllValues log → (me : Me) → 1 < me.member.monitors → (before : Store)
        → IsShaped before → (after : Store) (s : State) → Synchronizes log me before after s → (readings_of after).marked ≡ false
        → IsSynchronized log (readings_of before) (floor_of (readings_of before)) after }
    ensures again { (log : List (List ℕ)) → length log ≤ 2 ^ 62 → AllValues log → (me : Me) → 1 < me.member.monitors → (before : Store)
        → IsShaped before → (after : Store) (s : State) → Synchronizes log me before after s → IsShaped after }
    ensures first { (log : List (List ℕ)) → length log ≤ 2 ^ 62 → AllValues log → (c : ℕ) (m : Store) → HasVersions log c m → IsShaped m }
{}
