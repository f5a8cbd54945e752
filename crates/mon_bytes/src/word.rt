ghost use Rattle.std.specs.Prelude.{◌≡◌, ℕ, ◌≤◌, List, length, IsTrue, IfSome, IfOk, is_some, string_bytes};
ghost use Rattle.std.specs.List.{list_all};
ghost use Rattle.mon_bytes.specs.Texts.{graphic, is_word};

use crate::limits::{MOST_NAME, MOST_PREFIX};
use crate::memory::OutOfMemory;
use std::alloc::Global;
use std::marker::Model;

fn all_graphic(bytes: &[u8]) -> bool
    ensures { result ≡ list_all graphic bytes.now }
{
    bytes.iter().all(|b| *b >= 0x21 && *b <= 0x7e)
}

fn is_word(bytes: &[u8], most: usize) -> bool
    ensures { result ≡ is_word most bytes.now }
{
    if bytes.is_empty() || bytes.len() > most {
        return false;
    }
    all_graphic(bytes)
}

fn graphic_text(bytes: Vec<u8>) -> String
    requires { IsTrue (list_all graphic bytes.items) }
    ensures { string_bytes result ≡ bytes.items }
{
    match String::from_utf8(bytes) {
        Ok(text) => text,
        Err(_) => unreachable!(),
    }
}

/// 1 to `MOST` graphic bytes, each from 0x21 to 0x7E.
#[derive(Drop)]
pub struct Word<const MOST: usize> {
    text: String,
}

impl<const MOST: usize> Model for Word<MOST> {
    ghost Value = { List ℕ };

    ghost view = { λ x. string_bytes x.text };

    ghost invariant = { λ x. IsTrue (is_word MOST (string_bytes x.text)) };
}

impl<const MOST: usize> Word<MOST> {
    /// `None` if and only if the bytes aren't 1 to `MOST` graphic ones. It takes no memory.
    pub fn new(bytes: Vec<u8>) -> Option<Word<MOST>>
        ensures valid { is_some result ≡ is_word MOST bytes.items }
        ensures value { IfSome result (λ x. x ≡ bytes.items) }
    {
        if is_word(&bytes, MOST) {
            Some(Word {
                text: graphic_text(bytes),
            })
        } else {
            None
        }
    }

    /// The word of these bytes, which are known to be 1 to `MOST` graphic ones.
    pub fn from_slice(alloc: Global, bytes: &[u8]) -> Result<Word<MOST>, OutOfMemory>
        requires { IsTrue (is_word MOST bytes.now) }
        ensures { IfOk result (λ x. x ≡ bytes.now) }
    {
        match Word::new(Vec::from_slice(alloc, bytes)?) {
            Some(word) => Ok(word),
            None => unreachable!(),
        }
    }

    /// Whether the bytes are 1 to `MOST` graphic ones. It takes no memory.
    pub fn is_form(bytes: &[u8]) -> bool
        ensures { result ≡ is_word MOST bytes.now }
    {
        is_word(bytes, MOST)
    }

    /// The bytes.
    pub fn as_slice(&self) -> &[u8]
        ensures value { result.now ≡ self.now }
        ensures form { IsTrue (is_word MOST self.now) }
    {
        self.text.as_bytes()
    }

    /// The bytes as text.
    pub fn as_str(&self) -> &str
        ensures value { result.now ≡ self.now }
        ensures form { IsTrue (is_word MOST self.now) }
    {
        self.text.as_str()
    }

    /// The text, taken out without memory.
    pub fn into_string(self) -> String
        ensures value { string_bytes result ≡ self.entry }
        ensures form { IsTrue (is_word MOST self.entry) }
    {
        self.text
    }

    /// An equal word.
    pub fn copy(&self, alloc: Global) -> Result<Word<MOST>, OutOfMemory>
        ensures { IfOk result (λ x. x ≡ self.now) }
    {
        Ok(Word {
            text: String::from_str(alloc, self.text.as_str())?,
        })
    }
}

/// A key of a map.
pub type Name = Word<MOST_NAME>;

/// A prefix of a map's keys: the name of an area.
pub type Prefix = Word<MOST_PREFIX>;
