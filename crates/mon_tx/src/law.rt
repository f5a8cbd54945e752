//! Laws of changes and of their texts.

ghost use Rattle.std.specs.Prelude.{◌≡◌, ℕ, Bool, true, false, ◌&&◌, nat_le, nat_lt, if◌then◌else◌, List, [], ◌∷◌, ◌++◌, map, None, Ok, codes};
ghost use Rattle.std.specs.FinMap.{get};
ghost use Rattle.mon_bytes.specs.Reading.{IsBytes};
ghost use Rattle.mon_tx.specs.declared.op.Op.{Op};
ghost use Rattle.mon_tx.specs.declared.op.Op.TheVariants.{EraseRange};
ghost use Rattle.mon_tx.specs.declared.key.Key.{Key};
ghost use Rattle.mon_tx.specs.Text.{text};
ghost use Rattle.mon_tx.specs.Decode.{transaction_of, HasText};
ghost use Rattle.mon_tx.specs.Map.{Place, Store, apply_op, apply, is_within};
ghost use Rattle.mon_tx.specs.Keys.{decimal_text, key_text, covers};
ghost use Rattle.mon_tx.specs.Decision.{decision, or_before};

/// Decoding accepts exactly the encodings, and returns the transactions that they encode.
pub fn law_reading()
    ensures found { (bytes : List ℕ) (ops : List Op) → IsBytes bytes → transaction_of bytes ≡ Ok ops
        → HasText ops × (bytes ≡ text ops) }
    ensures only { (ops : List Op) → HasText ops → transaction_of (text ops) ≡ Ok ops }
{}

/// Two transactions with the same encoding are equal.
pub fn law_distinct_encodings()
    ensures { (a b : List Op) → HasText a → HasText b → text a ≡ text b → a ≡ b }
{}

/// A transaction's text is no proper prefix of another one's.
pub fn law_no_prefix()
    ensures { (a b : List Op) (more : List ℕ) → HasText a → HasText b → text b ≡ text a ++ more → more ≡ [] }
{}

/// After changes, a key's value is what the last change of that key set, and otherwise what it was before.
pub fn law_last_decides()
    ensures { (ops : List Op) (m : Store) (at : Place) → get (apply ops m) at ≡ or_before (decision ops at) (get m at) }
{}

/// A range erases by number, not by the order of texts: the decimal keys of the versions in it, and no other named key.
pub fn law_range()
    ensures versions { (m : Store) (prefix : List ℕ) (from to v : ℕ)
        → get (apply_op (EraseRange prefix from to) m) (prefix, decimal_text v)
        ≡ if nat_le from v && nat_lt v to then None else get m (prefix, decimal_text v) }
    ensures named { (m : Store) (prefix : List ℕ) (from to : ℕ) (key : Key) → covers from to key ≡ false
        → get (apply_op (EraseRange prefix from to) m) (prefix, key_text key) ≡ get m (prefix, key_text key) }
    ensures example { map (is_within 99 101) (codes "99" ∷ codes "100" ∷ codes "1000" ∷ codes "first_committed" ∷ [])
        ≡ true ∷ true ∷ false ∷ false ∷ [] }
{}
