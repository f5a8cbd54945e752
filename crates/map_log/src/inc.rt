ghost use Rattle.std.specs.Prelude.{◌≡◌, IfOk};

use mon_bytes::{OutOfMemory, Text};
use mon_types::Rank;
use std::alloc::Global;

/// An entry of the cluster log, which is also its incremental.
#[derive(Drop)]
pub struct LogInc {
    /// The monitor that was asked.
    pub rank: Rank,
    /// What was logged.
    pub text: Text,
}

impl LogInc {
    /// An equal entry.
    pub fn copy(&self, alloc: Global) -> Result<LogInc, OutOfMemory>
        ensures { IfOk result (λ inc. inc ≡ self.now) }
    {
        Ok(LogInc {
            rank: self.rank,
            text: self.text.copy(alloc)?,
        })
    }
}
