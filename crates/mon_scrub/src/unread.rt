//! The text of two reports that isn't read yet.

ghost use Rattle.std.specs.Prelude.{◌≡◌, ◌==◌, ◌≤◌, IfOk, length};
ghost use Rattle.std.specs.Str.{bytes_eq};
ghost use Rattle.hex.specs.Hex.{decode_sized, encode_lower};
ghost use Rattle.mon_scrub.specs.Reading.{Steps, Is, field_at, text_at, number_at, digest_at, if_encoded};

use crate::refusal::ReportRefused;
use hex::{FromHex, encode_to_slice};
use schedule_text::{cut, number_of};
use std::marker::Model;

#[derive(Drop)]
pub(crate) struct Unread<'a> {
    rest: &'a [u8],
}

impl<'a> Model for Unread<'a> {
    ghost use Rattle.std.specs.Prelude.{List, ℕ};

    ghost Value = { List ℕ };

    ghost view = { λ u. u.rest.now };
}

fn at(line: u32) -> ReportRefused
    ensures { result ≡ ReportRefused.Report line }
{
    ReportRefused::Report { line }
}

/// Whether a field is the lower-case text of a digest.
fn is_encoded(digest: &[u8; 32], field: &[u8]) -> bool
    ensures { result ≡ bytes_eq (encode_lower digest.now) field.now }
{
    let mut digits = [0u8; 64];
    match encode_to_slice(digest.as_slice(), &mut digits) {
        Ok(()) => digits.as_slice() == field,
        Err(_) => unreachable!(),
    }
}

fn digest_of(line: u32, field: &[u8]) -> Result<[u8; 32], ReportRefused>
    ensures { Is (λ d. d) result (if_encoded line field.now (decode_sized field.now 32)) }
{
    match <[u8; 32] as FromHex>::from_hex(field) {
        Ok(digest) => {
            if is_encoded(&digest, field) {
                Ok(digest)
            } else {
                Err(at(line))
            }
        }
        Err(_) => Err(at(line)),
    }
}

impl<'a> Unread<'a> {
    pub(crate) fn new(rest: &'a [u8]) -> Unread<'a>
        ensures { result ≡ rest.now }
    {
        Unread { rest }
    }

    pub(crate) fn is_empty(&self) -> bool
        ensures { result ≡ (length self.now == 0) }
    {
        self.rest.is_empty()
    }

    /// Takes this text.
    #[tactic(auto, unfolding(crate::specs::Reading::text_at))]
    pub(crate) fn text(&mut self, line: u32, text: &[u8]) -> Result<(), ReportRefused>
        ensures { Steps (λ x. x) result self.new (text_at line text.now self.old) }
    {
        if text.len() > self.rest.len() {
            return Err(at(line));
        }
        if &self.rest[..text.len()] != text {
            return Err(at(line));
        }
        self.rest = &self.rest[text.len()..];
        Ok(())
    }

    /// Takes the bytes up to a separator.
    fn field(&mut self, line: u32, separator: u8) -> Result<&'a [u8], ReportRefused>
        ensures { Steps (λ x. x.now) result self.new (field_at line separator self.old) }
    {
        let (field, rest) = cut(separator, self.rest);
        match rest {
            Some(rest) => {
                self.rest = rest;
                Ok(field)
            }
            None => Err(at(line)),
        }
    }

    /// Takes a number within these bounds, up to a separator.
    #[tactic(auto, unfolding(crate::specs::Reading::number_at))]
    pub(crate) fn number(
        &mut self,
        line: u32,
        separator: u8,
        least: u64,
        most: u64,
    ) -> Result<u64, ReportRefused>
        ensures value { Steps (λ n. n) result self.new (number_at line separator least most self.old) }
        ensures least { IfOk result (λ n. least ≤ n) }
        ensures most { IfOk result (λ n. n ≤ most) }
    {
        let field = self.field(line, separator)?;
        match number_of(field, least, most) {
            Ok(n) => Ok(n),
            Err(_) => Err(at(line)),
        }
    }

    /// Takes a digest, up to the end of the line.
    #[tactic(auto, unfolding(crate::specs::Reading::digest_at))]
    pub(crate) fn digest(&mut self, line: u32) -> Result<[u8; 32], ReportRefused>
        ensures { Steps (λ d. d) result self.new (digest_at line self.old) }
    {
        let field = self.field(line, b'\n')?;
        digest_of(line, field)
    }
}
