ghost use Rattle.std.specs.Prelude.{◌≡◌, ℕ, ◌≤◌, ◌<◌, ◌+◌, ◌^◌, length, IfOk};
ghost use Rattle.mon_bytes.specs.Reading.{number, next_bytes, Steps};

use byteorder::{ByteOrder, LittleEndian};
use std::marker::Model;
use thiserror::Error;

/// Fewer bytes are left than were asked for, at this place.
#[derive(Clone, Copy, Debug, PartialEq, Eq, Error)]
#[error("cut at {at}")]
pub struct Short {
    pub at: usize,
}

/// Reads numbers, the lowest byte first, and bytes, from left to right. A refused read doesn't move the cursor.
#[derive(Drop)]
pub struct Cursor<'a> {
    bytes: &'a [u8],
    at: usize,
}

impl<'a> Model for Cursor<'a> {
    ghost use Rattle.std.specs.Prelude.{drop, length, ◌≤◌};
    ghost use Rattle.mon_bytes.specs.Reading.{Reading};

    ghost Value = { Reading };

    ghost view = { λ c. record { at = c.at; rest = drop c.at c.bytes.now } };

    ghost invariant = { λ c. c.at ≤ length c.bytes.now };
}

impl<'a> Cursor<'a> {
    /// A cursor at the first byte.
    pub fn new(bytes: &'a [u8]) -> Cursor<'a>
        ensures { result ≡ record { at = 0; rest = bytes.now } }
    {
        Cursor { bytes, at: 0 }
    }

    /// How many bytes were read.
    pub fn at(&self) -> usize
        ensures value { result ≡ self.now.at }
        ensures within { self.now.at + length self.now.rest < 2 ^ 63 }
    {
        // For the prover: a slice has less than 2^63 bytes.
        let _whole = self.bytes.len();
        self.at
    }

    /// How many bytes are left.
    pub fn left(&self) -> usize
        ensures { result ≡ length self.now.rest }
    {
        self.bytes.len() - self.at
    }

    /// The next `n` bytes. `Short` if and only if fewer are left.
    pub fn take_bytes(&mut self, n: usize) -> Result<&'a [u8], Short>
        ensures step { Steps (λ x. x.now) result self.old self.new (next_bytes n self.old) }
        ensures len { IfOk result (λ x. length x.now ≡ n) }
        ensures within { self.new.at + length self.new.rest < 2 ^ 63 }
    {
        if n > self.bytes.len() - self.at {
            return Err(Short { at: self.at });
        }
        let rest = &self.bytes[self.at..];
        self.at += n;
        Ok(&rest[..n])
    }

    /// The next byte.
    pub fn take_u8(&mut self) -> Result<u8, Short>
        ensures step { Steps (λ x. x) result self.old self.new (number 1 self.old) }
        ensures within { self.new.at + length self.new.rest < 2 ^ 63 }
    {
        let bytes = self.take_bytes(1)?;
        Ok(bytes[0])
    }

    /// The number in the next two bytes.
    pub fn take_u16(&mut self) -> Result<u16, Short>
        ensures step { Steps (λ x. x) result self.old self.new (number 2 self.old) }
        ensures within { self.new.at + length self.new.rest < 2 ^ 63 }
    {
        let bytes = self.take_bytes(2)?;
        Ok(LittleEndian::read_u16(bytes))
    }

    /// The number in the next four bytes.
    pub fn take_u32(&mut self) -> Result<u32, Short>
        ensures step { Steps (λ x. x) result self.old self.new (number 4 self.old) }
        ensures within { self.new.at + length self.new.rest < 2 ^ 63 }
    {
        let bytes = self.take_bytes(4)?;
        Ok(LittleEndian::read_u32(bytes))
    }

    /// The number in the next eight bytes.
    pub fn take_u64(&mut self) -> Result<u64, Short>
        ensures step { Steps (λ x. x) result self.old self.new (number 8 self.old) }
        ensures within { self.new.at + length self.new.rest < 2 ^ 63 }
    {
        let bytes = self.take_bytes(8)?;
        Ok(LittleEndian::read_u64(bytes))
    }
}
