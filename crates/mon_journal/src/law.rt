//! Laws of files as they are written and read.

ghost use Rattle.std.specs.Prelude.{◌≡◌, ◌≢◌, ℕ, ◌+◌, List, length, Some, Ok};
ghost use Rattle.std.specs.List.{flat_map};
ghost use Rattle.mon_bytes.specs.Reading.{IsBytes};
ghost use Rattle.mon_journal.specs.Content.{Header, Held, content};
ghost use Rattle.mon_journal.specs.Written.{record_bytes, IsHeader, AreShort, file_bytes};

/// A file as it is written holds its header and its payloads, up to its first closed gate and whatever follows that;
/// and a file that holds a header and payloads is so written.
pub fn law_written()
    ensures read { (header : Header) (payloads : List (List ℕ)) (gate : ℕ) (behind : List ℕ) → IsHeader header
        → AreShort payloads → gate ≢ 1 → content (file_bytes header payloads gate behind)
        ≡ Some (Ok (record {
          header = header;
          payloads = payloads;
          next_gate = 25 + length
              (flat_map record_bytes payloads);
        })) }
    ensures found { (file : List ℕ) (held : Held) → IsBytes file → content file ≡ Some (Ok held)
        → (gate : ℕ) × (behind : List ℕ) × (gate ≢ 1) × IsHeader held.header × AreShort held.payloads
        × (file ≡ file_bytes held.header held.payloads gate behind) }
{}
