//! The laws that join what an event does to the store with what the store's readers return, and laws of what is
//! picked out of timers and lists.

ghost use Rattle.std.specs.Prelude.{◌≡◌, ◌≤◌, ℕ, Bool, false, List, Option};
ghost use Rattle.std.specs.List.{AllByRecursion, count_by, list_any};
ghost use Rattle.mon_bytes.specs.declared.entry.Entry.{Entry};
ghost use Rattle.mon_tx.specs.Map.{Place, Store, apply};
ghost use Rattle.mon_tx.specs.declared.op.Op.{Op};
ghost use Rattle.mon_msg.specs.Joined.{joined, puts, takes_away};
ghost use Rattle.mon_msg.specs.Protocol.Changes.{Change, encoded};
ghost use Rattle.mon_msg.specs.Protocol.Played.{Fits, played};
ghost use Rattle.mon_msg.specs.Protocol.Readings.{readings_of, after};
ghost use Rattle.mon_msg.specs.Protocol.Records.{longest, IsLongest};
ghost use Rattle.mon_msg.specs.Protocol.Timers.{due, IsNext};

/// The joined transaction has the same effect on every map as the changes in their order. It puts a key that no change
/// takes away at most once.
pub fn law_joined()
    ensures same { (ops : List Op) (m : Store) → apply (joined ops) m ≡ apply ops m }
    ensures once { (ops : List Op) (at : Place) → list_any (takes_away at) ops ≡ false → count_by (puts at) (joined ops) ≤ 1 }
{}

/// What a monitor's readers return after changes follows from those changes and from what they returned before.
pub fn law_readings()
    ensures { (ops : List Op) (m : Store) → readings_of (apply ops m) ≡ after ops (readings_of m) }
{}

/// The effect of an event on a store can be described without keys and bytes: after its transaction, the readers
/// return the result of playing its changes on what they returned before. Every number in the changes has to be one
/// that the store can hold.
pub fn law_changes()
    ensures { (cs : List Change) → AllByRecursion Fits cs → (m : Store)
        → readings_of (apply (joined (encoded cs)) m) ≡ played cs (readings_of m) }
{}

/// The timer that fires next is armed. No timer is armed for an earlier time, and none of an earlier kind for the same
/// time. Nothing fires next only if no timer is armed.
pub fn law_due()
    ensures { (timers : List (Option ℕ)) → IsNext timers (due timers) }
{}

/// What a message takes of a log's values, of shared entries or of a service's incrementals is a prefix. Each prefix of
/// it but the empty one passes the message's test, and the next longer one doesn't.
pub fn law_longest()
    ensures values { (test : List (List Op) → Bool) (all : List (List Op)) → IsLongest test all (longest test all) }
    ensures entries { (test : List Entry → Bool) (all : List Entry) → IsLongest test all (longest test all) }
    ensures incrementals { (test : List (List ℕ) → Bool) (all : List (List ℕ)) → IsLongest test all (longest test all) }
{}
