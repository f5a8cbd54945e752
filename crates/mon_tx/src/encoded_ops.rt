//! The changes that a text encodes, read one after the other without memory.

ghost use Rattle.std.specs.Prelude.{◌≡◌, ◌<◌, false, [], Err, IfOk, IfErr, IfSome};
ghost use Rattle.mon_bytes.specs.Answers.{Gives};
ghost use Rattle.mon_tx.specs.Decode.{transaction_of, OpFits};
ghost use Rattle.mon_tx.specs.EncodedOp.{change, rest_of, GoesOn};

use crate::encode::MOST_TRANSACTION;
use crate::encoded_op::{EncodedOp, op_at};
use crate::fields::format_at;
use crate::refusal::TxRefused;
use mon_bytes::Cursor;

/// The changes of a text that aren't read yet.
#[derive(Drop)]
pub struct EncodedOps<'a> {
    cursor: Cursor<'a>,
    format: u8,
    left: u32,
    /// Whether a range is among the changes that were read.
    ranged: bool,
}

impl<'a> EncodedOps<'a> {
    /// Reads the format of a text and the number of its changes, and returns these unread. An `Err` is the refusal of
    /// the text.
    #[tactic(auto, unfolding(crate::specs::Decode::transaction_of, crate::specs::Decode::ops_of, crate::specs::EncodedOp::unread))]
    pub fn new(text: &'a [u8]) -> Result<EncodedOps<'a>, TxRefused>
        ensures ok { IfOk result (λ ops. rest_of ops ≡ transaction_of text.now) }
        ensures err { IfErr result (λ e. transaction_of text.now ≡ Err e) }
    {
        if text.len() as u64 > MOST_TRANSACTION {
            return Err(TxRefused::TooLong { len: text.len() });
        }
        let mut cursor = Cursor::new(text);
        let format = format_at(&mut cursor)?;
        let left = cursor.take_u32()?;
        Ok(EncodedOps {
            cursor,
            format,
            left,
            ranged: false,
        })
    }

    /// Refuses a text with bytes after its last change, or of the second format without a range.
    fn end(&self) -> Result<(), TxRefused>
        requires { self.now.left ≡ 0 }
        ensures { Gives (λ e. false) (λ _. []) result (rest_of self.now) }
    {
        if self.cursor.left() != 0 {
            return Err(TxRefused::Rest {
                at: self.cursor.at(),
            });
        }
        if self.format == 2 && !self.ranged {
            return Err(TxRefused::Kind { at: 0 });
        }
        Ok(())
    }

    /// Reads the next change, or returns `None` after the last one if the text may end there. An `Err` is the refusal
    /// of the text; after it no more changes may be read.
    pub fn next_op(&mut self) -> Result<Option<EncodedOp<'a>>, TxRefused>
        ensures op { GoesOn result (rest_of self.old) (rest_of self.new) }
        ensures fits { IfOk result (λ next. IfSome next (λ op. OpFits (change op))) }
        ensures less { IfOk result (λ next. IfSome next (λ _. self.new.left < self.old.left)) }
    {
        if self.left == 0 {
            self.end()?;
            return Ok(None);
        }
        match op_at(self.format, &mut self.cursor) {
            Ok(op) => {
                self.left -= 1;
                self.ranged |= op.is_range();
                Ok(Some(op))
            }
            Err(refused) => Err(refused),
        }
    }
}
