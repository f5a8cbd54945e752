ghost use Rattle.std.specs.Prelude.{◌≡◌, List, IfOk, Ok};
ghost use Rattle.mon_bytes.specs.Format.{IsLawful};
ghost use Rattle.mon_bytes.specs.Forms.{Reads, Gives, ended, whole};

use crate::command::MapRefused;
use crate::cursor::Cursor;
use std::alloc::Global;

/// A value that a service keeps in bytes: a map, or a change of one.
pub trait Decode: Drop + Sized {
    ghost use Rattle.std.specs.Prelude.{List, Result, ℕ};
    ghost use Rattle.mon_bytes.specs.declared.command.MapRefused.{MapRefused};
    ghost use Rattle.mon_bytes.specs.Format.{Format};

    /// How a value is encoded and decoded, and which values have an encoding.
    ghost format: { Format MapRefused Self };

    /// The value that all of the bytes encode, or why there is none.
    ghost decoded: { List ℕ → Result Self MapRefused };

    /// Reads a value from the front of the cursor. After a refusal the cursor may be anywhere.
    fn read(alloc: Global, cursor: &mut Cursor<'_>) -> Result<Self, MapRefused>
        ensures value { Reads (λ x. x) result cursor.new (format.read cursor.old) }
        // Decoding accepts exactly the encodings.
        ensures lawful { IsLawful format }
        // `decoded` reads one value, and nothing may follow it.
        ensures whole { (bytes : List ℕ) → decoded bytes ≡ whole format bytes };

    /// Decodes a value from all of the bytes. `Form` names the first byte of the first faulty field.
    final fn decode(alloc: Global, bytes: &[u8]) -> Result<Self, MapRefused>
        // What is read is the value whose encoding the bytes are.
        ensures found { IfOk result (λ x. format.Form x × (bytes.now ≡ format.text x)) }
        // An encoding is read, unless memory runs out.
        ensures only { (x : Self) → format.Form x → bytes.now ≡ format.text x → Gives (λ x. x) result (Ok x) }
        // Which field is at fault.
        ensures exact { Gives (λ x. x) result (decoded bytes.now) }
    {
        read_whole(alloc, bytes)
    }
}

/// Returns what was read, if no byte is left, and otherwise refuses the first one.
#[tactic(auto, unfolding(crate::specs::Forms::ended))]
fn ended<T: Drop>(value: T, cursor: &Cursor<'_>) -> Result<T, MapRefused>
    ensures { Gives (λ x. x) result (ended (value, cursor.now)) }
{
    if cursor.left() != 0 {
        return Err(MapRefused::Form { at: cursor.at() });
    }
    Ok(value)
}

#[tactic(auto, unfolding(crate::specs::Forms::whole))]
fn read_whole<T: Decode>(alloc: Global, bytes: &[u8]) -> Result<T, MapRefused>
    ensures value { Gives (λ x. x) result (whole T.format bytes.now) }
    ensures lawful { IsLawful T.format }
    ensures whole { (bytes : List _) → T.decoded bytes ≡ whole T.format bytes }
{
    let mut cursor = Cursor::new(bytes);
    let value = T::read(alloc, &mut cursor)?;
    ended(value, &cursor)
}
