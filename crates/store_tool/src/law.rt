//! The law of exports.

ghost use Rattle.std.specs.Prelude.{◌≡◌, ℕ, List, Ok};
ghost use Rattle.mon_bytes.specs.Reading.{IsBytes};
ghost use Rattle.mon_tx.specs.Map.{Store};
ghost use Rattle.mon_journal.specs.Fields.{Owner};
ghost use Rattle.store_tool.specs.Export.{export_text, export_of, HasExport};

/// The reader takes exactly the exports, and gives the member and the map that each was made from. So a member and a map
/// have one export.
pub fn law_exports()
    ensures found { (bytes : List ℕ) (owner : Owner) (m : Store) → IsBytes bytes → export_of bytes ≡ Ok (owner, m)
        → HasExport owner m × (bytes ≡ export_text owner m) }
    ensures again { (owner : Owner) (m : Store) → HasExport owner m → export_of (export_text owner m) ≡ Ok (owner, m) }
{}
