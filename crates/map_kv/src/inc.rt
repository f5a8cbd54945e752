ghost use Rattle.std.specs.Prelude.{◌≡◌, IfOk};

use mon_bytes::{Name, OutOfMemory, Text};
use std::alloc::Global;

/// A change of the key-value map.
#[derive(Drop)]
pub enum KvInc {
    /// The key has this value.
    Set { key: Name, value: Text },
    /// The key has no value.
    Remove { key: Name },
}

impl KvInc {
    /// An equal incremental.
    pub fn copy(&self, alloc: Global) -> Result<KvInc, OutOfMemory>
        ensures { IfOk result (λ inc. inc ≡ self.now) }
    {
        Ok(match self {
            KvInc::Set { key, value } => KvInc::Set {
                key: key.copy(alloc)?,
                value: value.copy(alloc)?,
            },
            KvInc::Remove { key } => KvInc::Remove {
                key: key.copy(alloc)?,
            },
        })
    }
}
