ghost use Rattle.std.specs.Prelude.{◌≡◌, ℕ, ◌<◌, ◌++◌, true, List, Ok};
ghost use Rattle.mon_kv.specs.Readers.{is_marked};
ghost use Rattle.quorum_model.specs.Growth.{last_of};
ghost use Rattle.quorum_model.specs.Monitors.{Monitors};
ghost use Rattle.quorum_model.specs.Runs.{run};
ghost use Rattle.quorum_model.specs.Safe.{Safe};
ghost use Rattle.quorum_model.specs.World.{Event};
ghost use Rattle.mon_scrub.specs.Parts.{parts_of};
ghost use Rattle.mon_scrub.specs.Reading.{reports_at};
ghost use Rattle.mon_scrub.specs.Text.{Fields, IsReport, fields_text};

/// In a safe run, two monitors that aren't marked and have the same last version have equal parts.
pub fn law_scrub()
    ensures { (ms : Monitors) (events : List Event) → Safe ms events → (i j : ℕ) → i < ms.count → j < ms.count
        → ¬ (is_marked ((run ms events).store i) ≡ true) → ¬ (is_marked ((run ms events).store j) ≡ true)
        → last_of ((run ms events).store i) ≡ last_of ((run ms events).store j)
        → parts_of ((run ms events).store i) ≡ parts_of ((run ms events).store j) }
{}

/// The bytes from which two reports are read are exactly the texts of these two, one after the other: what `print` writes
/// is read again, and nothing else is read.
pub fn law_reports()
    ensures again { (a b : Fields) → IsReport a → IsReport b → reports_at (fields_text a ++ fields_text b) ≡ Ok (a, b) }
    ensures found { (bytes : List ℕ) (a b : Fields) → reports_at bytes ≡ Ok (a, b)
        → (bytes ≡ fields_text a ++ fields_text b) × IsReport a × IsReport b }
{}
