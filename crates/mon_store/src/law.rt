//! Laws of checkpoints, and of the files of a store.

ghost use Rattle.std.specs.Prelude.{◌≡◌, ℕ, List, Ok};
ghost use Rattle.mon_bytes.specs.Reading.{IsBytes, Reading};
ghost use Rattle.mon_tx.specs.Map.{Store};
ghost use Rattle.mon_store.specs.Checkpoint.{checkpoint_text, HasCheckpoint};
ghost use Rattle.mon_store.specs.Decode.{checkpoint_of};
ghost use Rattle.mon_types.specs.declared.member.Member.{Member};
ghost use Rattle.mon_types.specs.declared.names.Side.{Side};
ghost use Rattle.mon_journal.specs.declared.journal.Journal.{Journal};
ghost use Rattle.mon_journal.specs.Written.{owner_of};
ghost use Rattle.mon_store.specs.Pair.{stands};
ghost use Rattle.mon_store.specs.Sound.{StandsOn};
ghost use Rattle.mon_store.specs.StoreView.{opens_as};

/// Decoding accepts exactly the checkpoints, and returns the maps that they encode. So each map has one checkpoint.
pub fn law_checkpoints()
    ensures found { (c : Reading) (m : Store) → IsBytes c.rest → checkpoint_of c ≡ Ok m
        → HasCheckpoint m × (c.rest ≡ checkpoint_text m) }
    ensures only { (c : Reading) (m : Store) → c.rest ≡ checkpoint_text m → HasCheckpoint m → checkpoint_of c ≡ Ok m }
{}

/// Two files of a store represent its map, and its member opens it from them.
pub fn law_stands()
    ensures map { (side : Side) (journal : Journal) (m : Store) (a b : List ℕ) → StandsOn side journal m a b
        → stands a b ≡ Ok m }
    ensures opens { (member : Member) (side : Side) (journal : Journal) (m : Store) (a b : List ℕ)
        → StandsOn side journal m a b → owner_of journal.member ≡ owner_of member
        → opens_as member a b ≡ Ok (record { side = side; journal = journal; kv = m }) }
{}
