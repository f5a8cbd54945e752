ghost use Rattle.std.specs.Prelude.{◌≡◌, IfOk};

use mon_bytes::{Bytes, Name, OutOfMemory, Prefix};
use mon_types::Version;
use std::alloc::Global;

/// One change of a map.
#[derive(Drop)]
pub enum Op {
    /// Sets the value of a key.
    Put {
        prefix: Prefix,
        key: Name,
        value: Bytes,
    },
    /// Takes a key away.
    Erase {
        prefix: Prefix,
        key: Name,
    },
    /// Takes every key of the prefix away.
    ErasePrefix {
        prefix: Prefix,
    },
    /// Takes away every key of the prefix that is the decimal number, without padding, of a version from `from` up to
    /// but not including `to`, which is above it. The range is by number, since such keys aren't in that order.
    EraseRange {
        prefix: Prefix,
        from: Version,
        to: Version,
    },
}

/// An equal put.
fn copied_put(alloc: Global, prefix: &Prefix, key: &Name, value: &Bytes) -> Result<Op, OutOfMemory>
    ensures { IfOk result (λ op. op ≡ Op.Put prefix.now key.now value.now) }
{
    Ok(Op::Put {
        prefix: prefix.copy(alloc)?,
        key: key.copy(alloc)?,
        value: value.copy(alloc)?,
    })
}

/// An equal erasure of a key.
fn copied_erase(alloc: Global, prefix: &Prefix, key: &Name) -> Result<Op, OutOfMemory>
    ensures { IfOk result (λ op. op ≡ Op.Erase prefix.now key.now) }
{
    Ok(Op::Erase {
        prefix: prefix.copy(alloc)?,
        key: key.copy(alloc)?,
    })
}

impl Op {
    /// An equal change.
    pub fn copy(&self, alloc: Global) -> Result<Op, OutOfMemory>
        ensures { IfOk result (λ op. op ≡ self.now) }
    {
        match self {
            Op::Put { prefix, key, value } => copied_put(alloc, prefix, key, value),
            Op::Erase { prefix, key } => copied_erase(alloc, prefix, key),
            Op::ErasePrefix { prefix } => Ok(Op::ErasePrefix {
                prefix: prefix.copy(alloc)?,
            }),
            Op::EraseRange { prefix, from, to } => Ok(Op::EraseRange {
                prefix: prefix.copy(alloc)?,
                from: *from,
                to: *to,
            }),
        }
    }
}
