//! The model's numbers of calls are those of a store.

ghost use Rattle.std.specs.Prelude.{◌≡◌, ℕ, List, length, Option, Some, None, Ok};
ghost use Rattle.mon_journal.specs.Content.{Held};
ghost use Rattle.mon_journal.specs.Fields.{Owner};
ghost use Rattle.mon_journal.specs.Steps.{append_calls, create_calls, open_calls};
ghost use Rattle.quorum_model.specs.declared.calls.TheConstants.{APPEND, CREATION, OPENING, SYNC};

/// The model's numbers of writes and syncs are those that a store makes when it opens a disk without an open file, or with
/// one, when it creates a file, and when it appends a record.
pub fn law_calls()
    ensures closed { length (open_calls None) ≡ SYNC }
    ensures open { (held : Held) → length (open_calls (Some (Ok held))) ≡ OPENING }
    ensures created { (owner : Owner) (generation : ℕ) (first : Option (List ℕ))
        → length (create_calls owner generation first) ≡ CREATION }
    ensures appended { (gate : ℕ) (payload : List ℕ) → length (append_calls gate payload) ≡ APPEND }
{}
