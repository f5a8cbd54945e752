ghost use Rattle.std.specs.Prelude.{◌≡◌, ℕ, ◌-◌, ◌^◌, ◌<◌, ◌≤◌, ◌∷◌, ◌++◌, min, length, Err, IfOk, OnOk, IsTrue};
ghost use Rattle.std.specs.List.{flat_map, list_all, list_any, AllByRecursion};
ghost use Rattle.mon_tx.specs.Text.{op_text, text, format, is_range, is_upward, value_len, most};
ghost use Rattle.mon_tx.specs.Decode.{OpFits, HasText};

use crate::kinds::{ERASE, ERASE_PREFIX, ERASE_RANGE, PUT};
use crate::op::Op;
use crate::transaction::Transaction;
use mon_bytes::{Bytes, Name, Out, OutOfMemory, Prefix};
use mon_types::Version;
use std::alloc::Global;
use thiserror::Error;

/// The most bytes that a transaction's text may have.
pub const MOST_TRANSACTION: u64 = 4194304;

/// Why a transaction has no text.
#[derive(Clone, Copy, Debug, PartialEq, Eq, Error)]
pub enum EncodeRefused {
    /// Its text would have `len` bytes, above 4,194,304.
    #[error("a text of {len} bytes")]
    TooLong { len: u64 },
    #[error("out of memory")]
    OutOfMemory,
}

fn op_len(op: &Op) -> u64
    ensures { result ≡ min (length (op_text op.now)) (2 ^ 64 - 1) }
{
    match op {
        Op::Put { prefix, key, value } => {
            let words = 7 + prefix.as_slice().len() as u64 + key.as_slice().len() as u64;
            words.saturating_add(value.as_slice().len() as u64)
        }
        Op::Erase { prefix, key } => {
            3 + prefix.as_slice().len() as u64 + key.as_slice().len() as u64
        }
        Op::ErasePrefix { prefix } => 2 + prefix.as_slice().len() as u64,
        Op::EraseRange { prefix, .. } => 18 + prefix.as_slice().len() as u64,
    }
}

fn put_put(out: &mut Out, prefix: &Prefix, key: &Name, value: &Bytes) -> Result<(), OutOfMemory>
    requires { length value.now < 2 ^ 32 }
    ensures text { OnOk result (out.new ≡ out.old ++ op_text (Op.Put prefix.now key.now value.now)) }
    ensures fits { OnOk result (OpFits (Op.Put prefix.now key.now value.now)) }
{
    out.put_u8(PUT)?;
    out.put_word(prefix.as_slice())?;
    out.put_word(key.as_slice())?;
    out.put_u32(value.as_slice().len() as u32)?;
    out.put_bytes(value.as_slice())
}

fn put_erase(out: &mut Out, prefix: &Prefix, key: &Name) -> Result<(), OutOfMemory>
    ensures text { OnOk result (out.new ≡ out.old ++ op_text (Op.Erase prefix.now key.now)) }
    ensures fits { OnOk result (OpFits (Op.Erase prefix.now key.now)) }
{
    out.put_u8(ERASE)?;
    out.put_word(prefix.as_slice())?;
    out.put_word(key.as_slice())
}

fn put_erase_prefix(out: &mut Out, prefix: &Prefix) -> Result<(), OutOfMemory>
    ensures text { OnOk result (out.new ≡ out.old ++ op_text (Op.ErasePrefix prefix.now)) }
    ensures fits { OnOk result (OpFits (Op.ErasePrefix prefix.now)) }
{
    out.put_u8(ERASE_PREFIX)?;
    out.put_word(prefix.as_slice())
}

fn put_range(
    out: &mut Out,
    prefix: &Prefix,
    from: &Version,
    to: &Version,
) -> Result<(), OutOfMemory>
    requires { from.now < to.now }
    ensures text { OnOk result (out.new ≡ out.old ++ op_text (Op.EraseRange prefix.now from.now to.now)) }
    ensures fits { OnOk result (OpFits (Op.EraseRange prefix.now from.now to.now)) }
{
    out.put_u8(ERASE_RANGE)?;
    out.put_word(prefix.as_slice())?;
    out.put_u64(from.get())?;
    out.put_u64(to.get())
}

fn put_op(out: &mut Out, op: &Op) -> Result<(), OutOfMemory>
    requires short { value_len op.now < 2 ^ 32 }
    requires upward { IsTrue (is_upward op.now) }
    ensures text { OnOk result (out.new ≡ out.old ++ op_text op.now) }
    ensures fits { OnOk result (OpFits op.now) }
{
    match op {
        Op::Put { prefix, key, value } => put_put(out, prefix, key, value),
        Op::Erase { prefix, key } => put_erase(out, prefix, key),
        Op::ErasePrefix { prefix } => put_erase_prefix(out, prefix),
        Op::EraseRange { prefix, from, to } => put_range(out, prefix, from, to),
    }
}

fn is_range(op: &Op) -> bool
    ensures { result ≡ is_range op.now }
{
    match op {
        Op::EraseRange { .. } => true,
        _ => false,
    }
}

pub(crate) fn has_range(ops: &[Op]) -> bool
    ensures { result ≡ list_any is_range ops.now }
{
    ops.iter().any(|op| is_range(op))
}

fn format(ops: &[Op]) -> u8
    ensures { result ≡ format ops.now }
{
    if has_range(ops) { 2 } else { 1 }
}

fn text_len(ops: &[Op]) -> u64
    ensures { result ≡ min (length (text ops.now)) (2 ^ 64 - 1) }
{
    let mut len: u64 = 5;
    for op in ops {
        len = len.saturating_add(op_len(op));
    }
    len
}

fn put_ops(out: &mut Out, ops: &[Op]) -> Result<(), OutOfMemory>
    requires short { length (text ops.now) ≤ most }
    requires upward { IsTrue (list_all is_upward ops.now) }
    ensures text { OnOk result (out.new ≡ out.old ++ text ops.now) }
    ensures fits { OnOk result (AllByRecursion OpFits ops.now) }
{
    out.put_u8(format(ops))?;
    out.put_u32(ops.len() as u32)?;
    for op in ops {
        put_op(out, op)?;
    }
    Ok(())
}

/// The text, which has `len` bytes.
fn text_of(alloc: Global, len: usize, ops: &[Op]) -> Result<Vec<u8>, OutOfMemory>
    requires short { length (text ops.now) ≤ most }
    requires upward { IsTrue (list_all is_upward ops.now) }
    ensures text { IfOk result (λ bytes. bytes.items ≡ text ops.now) }
    ensures fits { OnOk result (AllByRecursion OpFits ops.now) }
{
    let mut out = Out::with_capacity(alloc, len)?;
    put_ops(&mut out, ops)?;
    Ok(out.into_bytes())
}

impl Transaction {
    /// How many bytes the transaction's encoding has, or 2^64 - 1 if it has more. No memory is allocated.
    pub fn text_len(&self) -> u64
        ensures { result ≡ min (length (text self.now)) (2 ^ 64 - 1) }
    {
        text_len(self.ops())
    }

    /// The transaction's encoding. `TooLong` if and only if it has more than 4,194,304 bytes.
    pub fn encode(&self) -> Result<Vec<u8>, EncodeRefused>
        ensures text { IfOk result (λ bytes. bytes.items ≡ text self.now) }
        ensures fits { IfOk result (λ bytes. length bytes.items ≤ most) }
        ensures form { IfOk result (λ _. HasText self.now) }
        ensures too_long { (len : ℕ) → result ≡ Err (EncodeRefused.TooLong len)
            → (most < length (text self.now)) × (len ≡ min (length (text self.now)) (2 ^ 64 - 1)) }
        ensures whole { most < length (text self.now)
            → result ≡ Err (EncodeRefused.TooLong (min (length (text self.now)) (2 ^ 64 - 1))) }
    {
        let len = self.text_len();
        if len > MOST_TRANSACTION {
            return Err(EncodeRefused::TooLong { len });
        }
        match text_of(self.allocator(), len as usize, self.ops()) {
            Ok(bytes) => Ok(bytes),
            Err(_) => Err(EncodeRefused::OutOfMemory),
        }
    }
}
