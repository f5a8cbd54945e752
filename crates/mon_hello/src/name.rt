ghost use Rattle.std.specs.Prelude.{◌≡◌, List, ℕ, IsTrue, IfSome, IfOk, is_some};
ghost use Rattle.mon_hello.specs.Names.{is_quorum_name};

use mon_bytes::{OutOfMemory, Text};
use std::alloc::Global;
use std::marker::Model;

/// The most bytes of a quorum's name.
pub const MOST_QUORUM_NAME: usize = 255;

/// The name of a quorum: UTF-8 of at most 255 bytes, which may be empty.
#[derive(Drop)]
pub struct QuorumName {
    text: Text,
}

impl Model for QuorumName {
    ghost Value = { List ℕ };

    ghost view = { λ x. x.text };

    ghost invariant = { λ x. IsTrue (is_quorum_name x.text) };
}

impl QuorumName {
    /// `None` if and only if the bytes aren't UTF-8 or are more than 255. It takes no memory.
    pub fn new(bytes: Vec<u8>) -> Option<QuorumName>
        ensures valid { is_some result ≡ is_quorum_name bytes.items }
        ensures value { IfSome result (λ x. x ≡ bytes.items) }
    {
        if bytes.len() > MOST_QUORUM_NAME {
            return None;
        }
        let text = Text::new(bytes)?;
        Some(QuorumName { text })
    }

    /// The bytes.
    pub fn as_slice(&self) -> &[u8]
        ensures value { result.now ≡ self.now }
        ensures form { IsTrue (is_quorum_name self.now) }
    {
        self.text.as_slice()
    }

    /// The name as text.
    pub fn as_str(&self) -> &str
        ensures { result.now ≡ self.now }
    {
        self.text.as_str()
    }

    /// An equal name.
    pub fn copy(&self, alloc: Global) -> Result<QuorumName, OutOfMemory>
        ensures { IfOk result (λ x. x ≡ self.now) }
    {
        Ok(QuorumName {
            text: self.text.copy(alloc)?,
        })
    }
}
