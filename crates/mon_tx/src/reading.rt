//! A transaction from its bytes.

ghost use Rattle.std.specs.Prelude.{◌≡◌, ℕ, List, IsTrue, IfOk, Ok};
ghost use Rattle.mon_tx.specs.declared.op.Op.{Op};
ghost use Rattle.mon_tx.specs.Text.{text, is_upward};
ghost use Rattle.mon_tx.specs.Fields.{Reads, Gives};
ghost use Rattle.mon_tx.specs.Decode.{op_at, ops_at, ops_of, transaction_of, HasText};

use crate::encode::{MOST_TRANSACTION, has_range};
use crate::encoded_op::op_at;
use crate::fields::format_at;
use crate::op::Op;
use crate::refusal::TxRefused;
use crate::transaction::Transaction;
use mon_bytes::Cursor;
use std::alloc::Global;

#[tactic(auto, using(crate::proofs::Faults::fails))]
fn copied_at(alloc: Global, format: u8, cursor: &mut Cursor<'_>) -> Result<Op, TxRefused>
    ensures op { Reads (λ op. op) result cursor.new (op_at format cursor.old) }
    ensures upward { IfOk result (λ op. IsTrue (is_upward op)) }
{
    match op_at(format, cursor) {
        Ok(encoded_op) => Ok(encoded_op.to_op(alloc)?),
        Err(refused) => Err(refused),
    }
}

fn ops_at(
    alloc: Global,
    format: u8,
    count: u32,
    cursor: &mut Cursor<'_>,
) -> Result<Transaction, TxRefused>
    ensures { Reads (λ tx. tx) result cursor.new (ops_at format count cursor.old) }
{
    let mut tx = Transaction::new(alloc);
    for _ in 0..count {
        let op = copied_at(alloc, format, cursor)?;
        tx.push(op)?;
    }
    Ok(tx)
}

#[tactic(auto, using(crate::proofs::Faults::fails), unfolding(crate::specs::Decode::ops_of))]
fn ops_of(alloc: Global, cursor: &mut Cursor<'_>) -> Result<Transaction, TxRefused>
    ensures { Gives (λ tx. tx) result (ops_of cursor.old) }
{
    let at = cursor.at();
    let format = format_at(cursor)?;
    let count = cursor.take_u32()?;
    let tx = ops_at(alloc, format, count, cursor)?;
    if cursor.left() != 0 {
        return Err(TxRefused::Rest { at: cursor.at() });
    }
    if format == 2 && !has_range(tx.ops()) {
        return Err(TxRefused::Kind { at });
    }
    Ok(tx)
}

#[tactic(auto, unfolding(crate::specs::Decode::transaction_of))]
fn read(alloc: Global, bytes: &[u8]) -> Result<Transaction, TxRefused>
    ensures { Gives (λ tx. tx) result (transaction_of bytes.now) }
{
    if bytes.len() as u64 > MOST_TRANSACTION {
        return Err(TxRefused::TooLong { len: bytes.len() });
    }
    let mut cursor = Cursor::new(bytes);
    ops_of(alloc, &mut cursor)
}

/// Decodes a transaction from all of the bytes. Memory is taken as the bytes are read, and none for changes that an
/// encoding only claims to have.
pub fn decode(alloc: Global, bytes: &[u8]) -> Result<Transaction, TxRefused>
    // What is read is the transaction whose encoding the bytes are.
    ensures found { IfOk result (λ tx. HasText tx × (bytes.now ≡ text tx)) }

    // An encoding is read, unless memory runs out.
    ensures only { (ops : List Op) → HasText ops → bytes.now ≡ text ops → Gives (λ tx. tx) result (Ok ops) }

    // Which fault it is, and where it is.
    ensures exact { Gives (λ tx. tx) result (transaction_of bytes.now) }
{
    read(alloc, bytes)
}
