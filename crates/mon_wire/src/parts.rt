ghost use Rattle.std.specs.Prelude.{◌≡◌, IfOk};

use mon_bytes::{KeyPlace, OutOfMemory};
use mon_tx::Transaction;
use mon_types::{Pn, Version};
use std::alloc::Global;

/// A pending value that a peon sends its leader: one that it accepted under this number and doesn't know as
/// committed.
#[derive(Drop)]
pub struct Told {
    pub pn: Pn,
    pub value: Transaction,
}

impl Told {
    /// An equal value.
    pub fn copy(&self) -> Result<Told, OutOfMemory>
        ensures { IfOk result (λ told. told ≡ self.now) }
    {
        Ok(Told {
            pn: self.pn,
            value: self.value.copy()?,
        })
    }
}

/// How far a synchronization has come: the last version that was given, and the place among the shared keys.
#[derive(Drop)]
pub struct Place {
    pub version: Version,
    pub key: KeyPlace,
}

impl Place {
    /// An equal place.
    pub fn copy(&self, alloc: Global) -> Result<Place, OutOfMemory>
        ensures { IfOk result (λ place. place ≡ self.now) }
    {
        Ok(Place {
            version: self.version,
            key: self.key.copy(alloc)?,
        })
    }
}

/// What names a synchronization: the provider's boot count, and a number that it gives once in that boot.
#[derive(Clone, Copy, PartialEq, Eq)]
pub struct Cookie {
    pub boot: u64,
    pub seq: u64,
}
