ghost use Rattle.std.specs.Prelude.{◌≡◌, ℕ, ◌<◌, ◌^◌, ◌++◌, length, IsTrue, OnOk, OnErr};
ghost use Rattle.std.specs.Str.{is_utf8};
ghost use Rattle.mon_bytes.specs.Forms.{u32_bytes, text_bytes, text_at, Reads};

use crate::command::MapRefused;
use crate::cursor::Cursor;
use crate::memory::OutOfMemory;
use crate::out::Out;
use crate::texts::Text;
use byteorder::{ByteOrder, LittleEndian};
use std::alloc::Global;

/// Reads a length in four bytes, and then a text of that length. The fault of a field that doesn't fit, or whose
/// bytes aren't UTF-8, is at its first byte. After a refusal the cursor may be anywhere.
#[tactic(auto, unfolding(crate::specs::Forms::text_at))]
pub fn read_text(alloc: Global, cursor: &mut Cursor<'_>) -> Result<Text, MapRefused>
    ensures { Reads (λ text. text) result cursor.new (text_at cursor.old) }
{
    let length = cursor.take_u32()?;
    let at = cursor.at();
    let bytes = cursor.take_bytes(length as usize)?;
    let bytes = Vec::from_slice(alloc, bytes).map_err(OutOfMemory::from)?;
    let Some(text) = Text::new(bytes) else {
        return Err(MapRefused::Form { at });
    };
    Ok(text)
}

/// Appends a number in four bytes. After an `Err` the bytes are unchanged.
#[tactic(auto, unfolding(crate::specs::Forms::u32_bytes))]
pub fn write_count(out: &mut Out, count: u32) -> Result<(), OutOfMemory>
    ensures ok { OnOk result (out.new ≡ out.old ++ u32_bytes count) }
    ensures err { OnErr result (out.new ≡ out.old) }
{
    out.put_u32(count)
}

/// Appends a text with its length in four bytes. It is for texts of fewer than 2 ^ 32 bytes. After an `Err` the bytes
/// are unchanged.
#[tactic(auto, unfolding(crate::specs::Forms::u32_bytes))]
pub fn write_text(out: &mut Out, text: &Text) -> Result<(), OutOfMemory>
    requires { length text.now < 2 ^ 32 }
    ensures bytes { OnOk result (out.new ≡ out.old ++ text_bytes text.now) }
    ensures err { OnErr result (out.new ≡ out.old) }
    ensures form { IsTrue (is_utf8 text.now) }
{
    let bytes = text.as_slice();
    let mut length = [0; 4];
    LittleEndian::write_u32(&mut length, bytes.len() as u32);
    out.put_both(&length, bytes)
}
