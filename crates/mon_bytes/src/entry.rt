ghost use Rattle.std.specs.Prelude.{◌≡◌, IfOk};

use crate::memory::OutOfMemory;
use crate::texts::Bytes;
use crate::word::{Name, Prefix};
use std::alloc::Global;

/// A prefix and key of a map, with the value there.
#[derive(Drop)]
pub struct Entry {
    pub prefix: Prefix,
    pub key: Name,
    pub value: Bytes,
}

impl Entry {
    /// An equal entry.
    pub fn copy(&self, alloc: Global) -> Result<Entry, OutOfMemory>
        ensures { IfOk result (λ entry. entry ≡ self.now) }
    {
        Ok(Entry {
            prefix: self.prefix.copy(alloc)?,
            key: self.key.copy(alloc)?,
            value: self.value.copy(alloc)?,
        })
    }
}

/// A place among the keys of a map, in order of prefix and then key.
#[derive(Drop)]
pub enum KeyPlace {
    /// Before every key.
    Start,
    /// After this key, and before the next.
    After { prefix: Prefix, key: Name },
    /// After every key.
    Done,
}

impl KeyPlace {
    /// An equal place.
    pub fn copy(&self, alloc: Global) -> Result<KeyPlace, OutOfMemory>
        ensures { IfOk result (λ place. place ≡ self.now) }
    {
        Ok(match self {
            KeyPlace::Start => KeyPlace::Start,
            KeyPlace::After { prefix, key } => KeyPlace::After {
                prefix: prefix.copy(alloc)?,
                key: key.copy(alloc)?,
            },
            KeyPlace::Done => KeyPlace::Done,
        })
    }
}
