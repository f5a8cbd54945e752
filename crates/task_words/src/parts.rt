//! The parts of a text that are between separators.

use schedule_text::{ScheduleKind, cut};
use std::marker::Model;

/// The text after the parts that were read, or `None` after the last part.
#[derive(Drop)]
pub(crate) struct Parts<'a> {
    rest: Option<&'a [u8]>,
}

impl<'a> Model for Parts<'a> {
    ghost use Rattle.std.specs.Prelude.{List, ℕ, Option};
    ghost use Rattle.std.specs.Option.{option_copied};

    ghost Value = { Option (List ℕ) };

    ghost view = { λ p. option_copied p.rest };
}

impl<'a> Parts<'a> {
    ghost use Rattle.std.specs.Prelude.{◌≡◌, Some, is_none};
    ghost use Rattle.std.specs.Option.{option_copied};
    ghost use Rattle.schedule_text.specs.Fields.{Steps};
    ghost use Rattle.task_words.specs.Parts.{part};

    pub(crate) fn new(text: &'a [u8]) -> Parts<'a>
        ensures { result ≡ Some text.now }
    {
        Parts { rest: Some(text) }
    }

    /// Returns the next part. It is an error if there is none.
    pub(crate) fn next(&mut self, separator: u8) -> Result<&'a [u8], ScheduleKind>
        ensures { Steps (λ x. x.now) result self.new (part separator self.old) }
    {
        match self.rest {
            None => Err(ScheduleKind::Word),
            Some(bytes) => {
                let (first, rest) = cut(separator, bytes);
                self.rest = rest;
                Ok(first)
            }
        }
    }

    /// Whether all parts were read.
    pub(crate) fn is_done(&self) -> bool
        ensures { result ≡ is_none self.now }
    {
        self.rest.is_none()
    }
}
