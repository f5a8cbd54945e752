//! One change of a transaction's text, read without memory.

ghost use Rattle.std.specs.Prelude.{◌≡◌, ℕ, List, IfOk, IsTrue};
ghost use Rattle.mon_bytes.specs.Texts.{is_name, is_prefix};
ghost use Rattle.mon_tx.specs.Text.{is_range, is_upward};
ghost use Rattle.mon_tx.specs.Fields.{Scans};
ghost use Rattle.mon_tx.specs.Decode.{put_at, erase_at, erase_prefix_at, erase_range_at, op_at, OpFits};
ghost use Rattle.mon_tx.specs.EncodedOp.{change};

use crate::fields::{value_at, version_at, word_at};
use crate::kinds::{ERASE, ERASE_PREFIX, ERASE_RANGE, PUT};
use crate::op::Op;
use crate::refusal::TxRefused;
use mon_bytes::{Bytes, Cursor, MOST_NAME, MOST_PREFIX, Name, OutOfMemory, Prefix};
use mon_types::Version;
use std::alloc::Global;

/// A change as an encoding has it.
#[derive(Clone, Copy)]
pub enum EncodedOp<'a> {
    /// Sets the value of a key.
    Put {
        prefix: &'a [u8],
        key: &'a [u8],
        value: &'a [u8],
    },
    /// Takes a key away.
    Erase {
        prefix: &'a [u8],
        key: &'a [u8],
    },
    /// Takes every key of the prefix away.
    ErasePrefix {
        prefix: &'a [u8],
    },
    /// Takes the keys of the versions from `from` up to but not including `to` away.
    EraseRange {
        prefix: &'a [u8],
        from: Version,
        to: Version,
    },
}

#[tactic(auto, unfolding(crate::specs::Decode::put_at))]
fn put_at<'a>(cursor: &mut Cursor<'a>) -> Result<EncodedOp<'a>, TxRefused>
    ensures op { Scans change result cursor.new (put_at cursor.old) }
    ensures fits { IfOk result (λ x. OpFits (change x)) }
{
    let prefix = word_at(cursor, MOST_PREFIX)?;
    let key = word_at(cursor, MOST_NAME)?;
    let value = value_at(cursor)?;
    Ok(EncodedOp::Put { prefix, key, value })
}

#[tactic(auto, unfolding(crate::specs::Decode::erase_at))]
fn erase_at<'a>(cursor: &mut Cursor<'a>) -> Result<EncodedOp<'a>, TxRefused>
    ensures op { Scans change result cursor.new (erase_at cursor.old) }
    ensures fits { IfOk result (λ x. OpFits (change x)) }
{
    let prefix = word_at(cursor, MOST_PREFIX)?;
    let key = word_at(cursor, MOST_NAME)?;
    Ok(EncodedOp::Erase { prefix, key })
}

#[tactic(auto, unfolding(crate::specs::Decode::erase_prefix_at))]
fn erase_prefix_at<'a>(cursor: &mut Cursor<'a>) -> Result<EncodedOp<'a>, TxRefused>
    ensures op { Scans change result cursor.new (erase_prefix_at cursor.old) }
    ensures fits { IfOk result (λ x. OpFits (change x)) }
{
    let prefix = word_at(cursor, MOST_PREFIX)?;
    Ok(EncodedOp::ErasePrefix { prefix })
}

#[tactic(auto, unfolding(crate::specs::Decode::erase_range_at))]
fn erase_range_at<'a>(cursor: &mut Cursor<'a>) -> Result<EncodedOp<'a>, TxRefused>
    ensures op { Scans change result cursor.new (erase_range_at cursor.old) }
    ensures fits { IfOk result (λ x. OpFits (change x)) }
{
    let prefix = word_at(cursor, MOST_PREFIX)?;
    let from = version_at(cursor)?;
    let at = cursor.at();
    let to = version_at(cursor)?;
    if from.get() < to.get() {
        Ok(EncodedOp::EraseRange { prefix, from, to })
    } else {
        Err(TxRefused::Range { at })
    }
}

/// Reads the next change of a text of that format. A range is refused in the first format.
#[tactic(auto, unfolding(crate::specs::Decode::op_at))]
pub fn op_at<'a>(format: u8, cursor: &mut Cursor<'a>) -> Result<EncodedOp<'a>, TxRefused>
    ensures op { Scans change result cursor.new (op_at format cursor.old) }
    ensures fits { IfOk result (λ x. OpFits (change x)) }
{
    let at = cursor.at();
    match cursor.take_u8()? {
        PUT => put_at(cursor),
        ERASE => erase_at(cursor),
        ERASE_PREFIX => erase_prefix_at(cursor),
        ERASE_RANGE => {
            if format == 2 {
                erase_range_at(cursor)
            } else {
                Err(TxRefused::Kind { at })
            }
        }
        _ => Err(TxRefused::Kind { at }),
    }
}

/// A put of copies of these bytes.
fn put_of(alloc: Global, prefix: &[u8], key: &[u8], value: &[u8]) -> Result<Op, OutOfMemory>
    requires prefix { IsTrue (is_prefix prefix.now) }
    requires key { IsTrue (is_name key.now) }
    ensures { IfOk result (λ op. op ≡ Op.Put prefix.now key.now value.now) }
{
    Ok(Op::Put {
        prefix: Prefix::from_slice(alloc, prefix)?,
        key: Name::from_slice(alloc, key)?,
        value: Bytes::new(Vec::from_slice(alloc, value)?),
    })
}

/// An erasure of a copy of this key.
fn erase_of(alloc: Global, prefix: &[u8], key: &[u8]) -> Result<Op, OutOfMemory>
    requires prefix { IsTrue (is_prefix prefix.now) }
    requires key { IsTrue (is_name key.now) }
    ensures { IfOk result (λ op. op ≡ Op.Erase prefix.now key.now) }
{
    Ok(Op::Erase {
        prefix: Prefix::from_slice(alloc, prefix)?,
        key: Name::from_slice(alloc, key)?,
    })
}

impl<'a> EncodedOp<'a> {
    /// Whether it takes a range of versions away.
    pub fn is_range(&self) -> bool
        ensures { result ≡ is_range (change self.now) }
    {
        match self {
            EncodedOp::EraseRange { .. } => true,
            _ => false,
        }
    }

    /// The change itself.
    pub fn to_op(&self, alloc: Global) -> Result<Op, OutOfMemory>
        requires { OpFits (change self.now) }
        ensures op { IfOk result (λ op. op ≡ change self.now) }
        ensures upward { IfOk result (λ op. IsTrue (is_upward op)) }
    {
        match self {
            EncodedOp::Put { prefix, key, value } => put_of(alloc, prefix, key, value),
            EncodedOp::Erase { prefix, key } => erase_of(alloc, prefix, key),
            EncodedOp::ErasePrefix { prefix } => Ok(Op::ErasePrefix {
                prefix: Prefix::from_slice(alloc, prefix)?,
            }),
            EncodedOp::EraseRange { prefix, from, to } => Ok(Op::EraseRange {
                prefix: Prefix::from_slice(alloc, prefix)?,
                from: *from,
                to: *to,
            }),
        }
    }
}
