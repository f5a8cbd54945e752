//! The fields of a transaction's text, read without memory.

ghost use Rattle.std.specs.Prelude.{◌≡◌, ℕ, ◌≤◌, ◌<◌, ◌+◌, ◌^◌, List, length, IsTrue, IfOk};
ghost use Rattle.std.specs.List.{list_all};
ghost use Rattle.mon_bytes.specs.Texts.{graphic, is_word};
ghost use Rattle.mon_tx.specs.Fields.{graphic_prefix_len, word_at, value_at, version_at, format_at, Scans};

use crate::refusal::TxRefused;
use mon_bytes::Cursor;
use mon_types::Version;

/// How many bytes are before the first that isn't graphic.
fn graphic_prefix_len(bytes: &[u8]) -> usize
    ensures value { result ≡ graphic_prefix_len bytes.now }
    ensures most { result ≤ length bytes.now }
{
    for (i, b) in bytes.iter().enumerate() {
        if *b < 0x21 || *b > 0x7e {
            return i;
        }
    }
    bytes.len()
}

/// Reads a prefix or a key of at most `limit` bytes, after its length.
#[tactic(auto, using(crate::proofs::Words::is_word_by), unfolding(crate::specs::Fields::word_at))]
pub fn word_at<'a>(cursor: &mut Cursor<'a>, limit: usize) -> Result<&'a [u8], TxRefused>
    ensures bytes { Scans (λ x. x.now) result cursor.new (word_at limit cursor.old) }
    ensures word { IfOk result (λ x. IsTrue (is_word limit x.now)) }
{
    let at = cursor.at();
    let n = cursor.take_u8()? as usize;
    if n < 1 || n > limit {
        return Err(TxRefused::Name { at });
    }
    let at = cursor.at();
    let bytes = cursor.take_bytes(n)?;
    let good = graphic_prefix_len(bytes);
    if good < bytes.len() {
        return Err(TxRefused::Name { at: at + good });
    }
    Ok(bytes)
}

/// Reads a value, after its length in four bytes.
#[tactic(auto, unfolding(crate::specs::Fields::value_at))]
pub fn value_at<'a>(cursor: &mut Cursor<'a>) -> Result<&'a [u8], TxRefused>
    ensures bytes { Scans (λ x. x.now) result cursor.new (value_at cursor.old) }
    ensures short { IfOk result (λ x. length x.now < 2 ^ 32) }
{
    let n = cursor.take_u32()?;
    Ok(cursor.take_bytes(n as usize)?)
}

/// Reads a version of a range: a number of at most 2^62.
#[tactic(auto, unfolding(crate::specs::Fields::version_at))]
pub fn version_at(cursor: &mut Cursor<'_>) -> Result<Version, TxRefused>
    ensures number { Scans (λ n. n) result cursor.new (version_at cursor.old) }
    ensures fits { IfOk result (λ n. n ≤ 2 ^ 62) }
{
    let at = cursor.at();
    let n = cursor.take_u64()?;
    Version::new(n).ok_or(TxRefused::Range { at })
}

/// The first byte.
#[tactic(auto, unfolding(crate::specs::Fields::format_at))]
pub fn format_at(cursor: &mut Cursor<'_>) -> Result<u8, TxRefused>
    ensures { Scans (λ n. n) result cursor.new (format_at cursor.old) }
{
    let at = cursor.at();
    let format = cursor.take_u8()?;
    if format == 1 || format == 2 {
        Ok(format)
    } else {
        Err(TxRefused::Kind { at })
    }
}
