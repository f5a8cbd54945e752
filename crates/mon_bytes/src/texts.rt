ghost use Rattle.std.specs.Prelude.{◌≡◌, ℕ, List, IsTrue, IfSome, IfOk, is_some, string_bytes};
ghost use Rattle.std.specs.Str.{is_utf8};

use crate::memory::OutOfMemory;
use std::alloc::Global;
use std::marker::Model;

/// Any bytes.
#[derive(Drop)]
pub struct Bytes {
    bytes: Vec<u8>,
}

impl Model for Bytes {
    ghost Value = { List ℕ };

    ghost view = { λ x. x.bytes.items };
}

impl Bytes {
    /// These bytes. It takes no memory.
    pub fn new(bytes: Vec<u8>) -> Bytes
        ensures { result ≡ bytes.items }
    {
        Bytes { bytes }
    }

    /// The bytes.
    pub fn as_slice(&self) -> &[u8]
        ensures { result.now ≡ self.now }
    {
        self.bytes.as_slice()
    }

    /// Equal bytes.
    pub fn copy(&self, alloc: Global) -> Result<Bytes, OutOfMemory>
        ensures { IfOk result (λ x. x ≡ self.now) }
    {
        Ok(Bytes {
            bytes: Vec::from_slice(alloc, self.bytes.as_slice())?,
        })
    }
}

/// Bytes that are UTF-8.
#[derive(Drop)]
pub struct Text {
    text: String,
}

impl Model for Text {
    ghost Value = { List ℕ };

    ghost view = { λ x. string_bytes x.text };
}

impl Text {
    /// `None` if and only if the bytes aren't UTF-8. It takes no memory.
    pub fn new(bytes: Vec<u8>) -> Option<Text>
        ensures valid { is_some result ≡ is_utf8 bytes.items }
        ensures value { IfSome result (λ x. x ≡ bytes.items) }
    {
        match String::from_utf8(bytes) {
            Ok(text) => {
                let _utf8 = text.as_str().as_bytes();
                Some(Text { text })
            }
            Err(_) => None,
        }
    }

    /// The bytes.
    pub fn as_slice(&self) -> &[u8]
        ensures value { result.now ≡ self.now }
        ensures utf8 { IsTrue (is_utf8 self.now) }
    {
        self.text.as_str().as_bytes()
    }

    /// The text.
    pub fn as_str(&self) -> &str
        ensures { result.now ≡ self.now }
    {
        self.text.as_str()
    }

    /// An equal text.
    pub fn copy(&self, alloc: Global) -> Result<Text, OutOfMemory>
        ensures { IfOk result (λ x. x ≡ self.now) }
    {
        Ok(Text {
            text: String::from_str(alloc, self.text.as_str())?,
        })
    }
}
