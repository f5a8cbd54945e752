//! Whether bytes encode a transaction, without memory.

ghost use Rattle.std.specs.Prelude.{◌≡◌, is_ok};
ghost use Rattle.mon_tx.specs.Fields.{Scans};
ghost use Rattle.mon_tx.specs.Decode.{ops_of, is_text};
ghost use Rattle.mon_tx.specs.EncodedOp.{range_at, ranges_at};

use crate::encode::MOST_TRANSACTION;
use crate::encoded_op::op_at;
use crate::fields::format_at;
use crate::refusal::TxRefused;
use mon_bytes::Cursor;

/// Scans over the next change, and returns whether it is a range.
fn range_at(format: u8, cursor: &mut Cursor<'_>) -> Result<bool, TxRefused>
    ensures { Scans (λ b. b) result cursor.new (range_at format cursor.old) }
{
    match op_at(format, cursor) {
        Ok(encoded_op) => Ok(encoded_op.is_range()),
        Err(refused) => Err(refused),
    }
}

/// Scans over that many changes, and returns whether a range is among them.
fn ranges_at(format: u8, count: u32, cursor: &mut Cursor<'_>) -> Result<bool, TxRefused>
    ensures { Scans (λ b. b) result cursor.new (ranges_at format count cursor.old) }
{
    let mut found = false;
    for _ in 0..count {
        let range = range_at(format, cursor)?;
        found = found || range;
    }
    Ok(found)
}

fn is_whole(cursor: &mut Cursor<'_>) -> bool
    ensures { result ≡ is_ok (ops_of cursor.old) }
{
    let Ok(format) = format_at(cursor) else {
        return false;
    };
    let Ok(count) = cursor.take_u32() else {
        return false;
    };
    let Ok(range) = ranges_at(format, count, cursor) else {
        return false;
    };
    if cursor.left() != 0 {
        return false;
    }
    format != 2 || range
}

/// Whether the bytes are at most 4,194,304 and encode a transaction. It takes no memory.
#[tactic(auto, unfolding(crate::specs::Decode::transaction_of))]
pub fn is_text(bytes: &[u8]) -> bool
    ensures { result ≡ is_text bytes.now }
{
    if bytes.len() as u64 > MOST_TRANSACTION {
        return false;
    }
    let mut cursor = Cursor::new(bytes);
    is_whole(&mut cursor)
}
