//! The law on which every decoder depends.

ghost use Rattle.std.specs.Prelude.{◌≡◌, ℕ, ◌<◌, ◌^◌, List, length};
ghost use Rattle.byteorder.specs.Endian.{little_bytes, little_number};
ghost use Rattle.mon_bytes.specs.Reading.{IsBytes};

/// The number that some bytes encode, encoded in as many bytes, is these bytes again. It is below 256 to the power of
/// their count.
pub fn law_little_endian()
    ensures back { (count : ℕ) (bytes : List ℕ) → length bytes ≡ count → IsBytes bytes
        → little_bytes count (little_number count bytes) ≡ bytes }
    ensures range { (count : ℕ) (bytes : List ℕ) → length bytes ≡ count → IsBytes bytes
        → little_number count bytes < 256 ^ count }
{}
