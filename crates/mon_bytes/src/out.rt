ghost use Rattle.std.specs.Prelude.{◌≡◌, ℕ, ◌<◌, List, [], ◌∷◌, ◌++◌, length, IfOk, OnOk, OnErr};
ghost use Rattle.byteorder.specs.Endian.{little_bytes};

use crate::memory::OutOfMemory;
use byteorder::{ByteOrder, LittleEndian};
use std::alloc::Global;
use std::marker::Model;

/// A buffer of bytes, to which numbers are appended with the lowest byte first. A call that fails leaves it unchanged.
#[derive(Drop)]
pub struct Out {
    bytes: Vec<u8>,
}

impl Model for Out {
    ghost Value = { List ℕ };

    ghost view = { λ x. x.bytes.items };
}

impl Out {
    /// No bytes yet. It takes no memory.
    pub fn new(alloc: Global) -> Out
        ensures { result ≡ [] }
    {
        Out {
            bytes: Vec::new(alloc),
        }
    }

    /// No bytes yet, with room for `most`.
    pub fn with_capacity(alloc: Global, most: usize) -> Result<Out, OutOfMemory>
        ensures { IfOk result (λ out. out ≡ []) }
    {
        Ok(Out {
            bytes: Vec::with_capacity(alloc, most)?,
        })
    }

    /// Appends the bytes.
    pub fn put_bytes(&mut self, bytes: &[u8]) -> Result<(), OutOfMemory>
        ensures ok { OnOk result (self.new ≡ self.old ++ bytes.now) }
        ensures err { OnErr result (self.new ≡ self.old) }
    {
        Ok(self.bytes.extend_from_slice(bytes)?)
    }

    /// Appends a byte.
    pub fn put_u8(&mut self, n: u8) -> Result<(), OutOfMemory>
        ensures ok { OnOk result (self.new ≡ self.old ++ n ∷ []) }
        ensures err { OnErr result (self.new ≡ self.old) }
    {
        Ok(self.bytes.push(n)?)
    }

    /// Appends a number as two bytes.
    pub fn put_u16(&mut self, n: u16) -> Result<(), OutOfMemory>
        ensures ok { OnOk result (self.new ≡ self.old ++ little_bytes 2 n) }
        ensures err { OnErr result (self.new ≡ self.old) }
    {
        let mut bytes = [0; 2];
        LittleEndian::write_u16(&mut bytes, n);
        self.put_bytes(&bytes)
    }

    /// Appends a number as four bytes.
    pub fn put_u32(&mut self, n: u32) -> Result<(), OutOfMemory>
        ensures ok { OnOk result (self.new ≡ self.old ++ little_bytes 4 n) }
        ensures err { OnErr result (self.new ≡ self.old) }
    {
        let mut bytes = [0; 4];
        LittleEndian::write_u32(&mut bytes, n);
        self.put_bytes(&bytes)
    }

    /// Appends a number as eight bytes.
    pub fn put_u64(&mut self, n: u64) -> Result<(), OutOfMemory>
        ensures ok { OnOk result (self.new ≡ self.old ++ little_bytes 8 n) }
        ensures err { OnErr result (self.new ≡ self.old) }
    {
        let mut bytes = [0; 8];
        LittleEndian::write_u64(&mut bytes, n);
        self.put_bytes(&bytes)
    }

    /// Appends the length of a word in a byte, and the word. It is for fewer than 256 bytes.
    pub fn put_word(&mut self, word: &[u8]) -> Result<(), OutOfMemory>
        requires { length word.now < 256 }
        ensures ok { OnOk result (self.new ≡ self.old ++ length word.now ∷ word.now) }
        ensures err { OnErr result (self.new ≡ self.old) }
    {
        self.put_both(&[word.len() as u8], word)
    }

    /// Appends these bytes and then those.
    pub(crate) fn put_both(&mut self, first: &[u8], second: &[u8]) -> Result<(), OutOfMemory>
        ensures ok { OnOk result (self.new ≡ self.old ++ first.now ++ second.now) }
        ensures err { OnErr result (self.new ≡ self.old) }
    {
        let before = self.bytes.len();
        self.put_bytes(first)?;
        let put = self.put_bytes(second);
        if put.is_err() {
            self.bytes.truncate(before);
        }
        put
    }

    /// All of the bytes.
    pub fn into_bytes(self) -> Vec<u8>
        ensures { result.items ≡ self }
    {
        self.bytes
    }
}
