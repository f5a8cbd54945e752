ghost use Rattle.std.specs.Prelude.{◌≡◌, ℕ, suc, ◌<◌, ◌≤◌, ◌^◌, List, [], ◌∷◌, ◌++◌, Some, None, true};
ghost use Rattle.std.specs.Prelude.{◌⊎◌, length, take, drop, ◌+◌, ◌↔◌, nat_lt, IsTrue};
ghost use Rattle.std.specs.FinMap.{get};
ghost use Rattle.std.specs.declared.cmp.Ordering.TheVariants.{Less};
ghost use Rattle.mon_tx.specs.declared.key.Area.TheVariants as area;
ghost use Rattle.mon_tx.specs.declared.key.Key.TheVariants as key;
ghost use Rattle.mon_tx.specs.declared.op.Op.{Op};
ghost use Rattle.mon_tx.specs.Decode.{HasText, ops_in};
ghost use Rattle.mon_tx.specs.Keys.{place, number, is_local, shared};
ghost use Rattle.mon_tx.specs.Map.{Place, place_cmp, Store, apply};
ghost use Rattle.mon_tx.specs.Text.{text};
ghost use Rattle.mon_msg.specs.Puts.{put, put_number};
ghost use Rattle.mon_msg.specs.Fold.{entry, fold};
ghost use Rattle.mon_msg.specs.Protocol.Services.{service_last, fits_reply};
ghost use Rattle.mon_msg.specs.Protocol.Records.{longest, most_value};
ghost use Rattle.mon_msg.specs.Protocol.Value.{service_of};
ghost use Rattle.mon_msg.specs.Protocol.Readings.{Readings, readings_of, after};
ghost use Rattle.log_model.specs.LogOfValues.{AllValues, IsValue, LogOf};
ghost use Rattle.log_model.specs.Windows.{Keeps, IsKeptKey, Shows};

/// The fold of every log of values keeps the windows: the newest records of the log, and the newest incrementals and
/// full maps of each service. It has no record above the last version. A store that keeps the windows still keeps them
/// once it learns the next version. There are such logs of every length up to 2^62. A value over such a store has an
/// encoding that is short enough to be proposed. The log's versions so far, with this encoding after them, are again a
/// log of values.
pub fn law_windows()
    ensures fold { (log : List (List ℕ)) → length log ≤ 2 ^ 62 → AllValues log → (c : ℕ) → c ≤ length log → Keeps log c (readings_of (fold log c)) }
    ensures above { (log : List (List ℕ)) → length log ≤ 2 ^ 62 → AllValues log → (c : ℕ) → c ≤ length log → (v : ℕ) → c < v
        → (readings_of (fold log c)).record_of v ≡ None }
    ensures learned { (log : List (List ℕ)) → length log ≤ 2 ^ 62 → AllValues log → (c : ℕ) → c < length log → (w : Readings)
        → Keeps log c w → Keeps log (suc c) (after (put area.Paxos (key.Version (suc c)) (entry log (suc c)) ∷ ops_in (entry log (suc c))) w) }
    ensures some { (n : ℕ) → n ≤ 2 ^ 62 → LogOf n }
    ensures next { (log : List (List ℕ)) → AllValues log → (c : ℕ) → c ≤ length log → c < 2 ^ 62 → (w : Readings) → Keeps log c w → w.last ≡ c
        → (value : List Op) → IsValue w value → HasText value × (length (text value) ≤ most_value) × AllValues (take c log ++ text value ∷ []) }
{}

/// Over any store, a value has an encoding that is short enough to be proposed, if the store can hold the next numbers.
pub fn law_proposed()
    ensures { (w : Readings) (value : List Op) (made : IsValue w value) → w.last ≤ 2 ^ 62 → suc (service_last w (service_of made.command)) ≤ 2 ^ 62
        → HasText value × (length (text value) ≤ most_value) }
{}

/// What monitors of a log of values share. The log's fold has only keys of the log and of the services. None of them is
/// a monitor's own, and none is above the key of the log's first version. A store whose shared part is the fold keeps
/// the windows. Its shared part is the next fold once it learns the next version.
pub fn law_shared()
    ensures keys { (log : List (List ℕ)) → length log ≤ 2 ^ 62 → AllValues log → (c : ℕ) → c ≤ length log → (at : Place) (bytes : List ℕ)
        → get (fold log c) at ≡ Some bytes → IsKeptKey at }
    ensures own { (log : List (List ℕ)) → length log ≤ 2 ^ 62 → AllValues log → (c : ℕ) → c ≤ length log → (at : Place)
        → is_local c at ≡ true → get (fold log c) at ≡ None }
    ensures greatest { (log : List (List ℕ)) → length log ≤ 2 ^ 62 → AllValues log → (c : ℕ) → c ≤ length log → (at : Place) (bytes : List ℕ)
        → get (fold log c) at ≡ Some bytes
        → (at ≡ place area.Paxos key.FirstCommitted) ⊎ (place_cmp at (place area.Paxos key.FirstCommitted) ≡ Less) }
    ensures keeps { (log : List (List ℕ)) → length log ≤ 2 ^ 62 → AllValues log → (c : ℕ) → c ≤ length log → (m : Store)
        → shared m ≡ fold log c → number m area.Paxos key.LastCommitted ≡ c → Keeps log c (readings_of m) }
    ensures learned { (log : List (List ℕ)) → length log ≤ 2 ^ 62 → AllValues log → (c : ℕ) → c < length log → (m : Store)
        → shared m ≡ fold log c → number m area.Paxos key.LastCommitted ≡ c
        → shared (apply (put area.Paxos (key.Version (suc c)) (entry log (suc c))
        ∷ (ops_in (entry log (suc c)) ++ put_number area.Paxos key.LastCommitted (suc c) ∷ [])) m) ≡ fold log (suc c) }
{}

/// What a monitor shows of a service is what the log makes of it, however much was trimmed: its map, its version and
/// its incrementals. A reply has the first of the incrementals, as many as fit, and reports whether there are more.
pub fn law_shown()
    ensures kept { (log : List (List ℕ)) → length log ≤ 2 ^ 62 → AllValues log → (c : ℕ) → c ≤ length log → (w : Readings)
        → Keeps log c w → Shows log c w }
    ensures shared { (log : List (List ℕ)) → length log ≤ 2 ^ 62 → AllValues log → (c : ℕ) → c ≤ length log → (m : Store)
        → shared m ≡ fold log c → Shows log c (readings_of m) }
    ensures first { (incrementals : List (List ℕ)) → longest fits_reply incrementals ≡ take (length (longest fits_reply incrementals)) incrementals }
    ensures more { (incrementals : List (List ℕ)) (v told : ℕ)
        → IsTrue (nat_lt told (length (drop v incrementals))) ↔ (v + told < length incrementals) }
{}
