ghost use Rattle.std.specs.Prelude.{◌≡◌, IfOk};

use crate::cursor::Short;
use crate::memory::OutOfMemory;
use crate::texts::Text;
use crate::word::Name;
use std::alloc::Global;
use thiserror::Error;

/// A change that a client asks of a service.
#[derive(Drop)]
pub enum Command {
    /// Sets a key of the key-value map.
    Set { key: Name, value: Text },
    /// Takes a key of the key-value map away.
    Remove { key: Name },
    /// Appends a text to the cluster log.
    Log { text: Text },
}

impl Command {
    /// An equal command.
    pub fn copy(&self, alloc: Global) -> Result<Command, OutOfMemory>
        ensures { IfOk result (λ command. command ≡ self.now) }
    {
        Ok(match self {
            Command::Set { key, value } => Command::Set {
                key: key.copy(alloc)?,
                value: value.copy(alloc)?,
            },
            Command::Remove { key } => Command::Remove {
                key: key.copy(alloc)?,
            },
            Command::Log { text } => Command::Log {
                text: text.copy(alloc)?,
            },
        })
    }
}

/// Why a command makes no version.
#[derive(Clone, Copy, Debug, PartialEq, Eq, Error)]
pub enum CommandRefused {
    /// The key to remove isn't there.
    #[error("no such key")]
    NoSuch,
    /// The value or text has `len` bytes, more than the `most` that are allowed.
    #[error("{len} bytes, above {most}")]
    TooLong { len: u64, most: u64 },
    /// The service's map would take this many bytes, more than it may.
    #[error("the map would have {would_be} bytes")]
    MapFull { would_be: u64 },
    #[error("out of memory")]
    OutOfMemory,
}

impl From<OutOfMemory> for CommandRefused {
    ghost use Rattle.std.specs.Prelude.{◌≡◌};
    ghost use Rattle.mon_bytes.specs.declared.command.CommandRefused.TheVariants.{OutOfMemory as no_memory};

    ghost from_gives = { λ _ e. e ≡ no_memory };

    fn from(_e: OutOfMemory) -> CommandRefused {
        CommandRefused::OutOfMemory
    }
}

/// Why bytes are no map or incremental of a service.
#[derive(Clone, Copy, Debug, PartialEq, Eq, Error)]
pub enum MapRefused {
    /// The first field at fault begins here.
    #[error("out of form at {at}")]
    Form { at: usize },
    #[error("out of memory")]
    OutOfMemory,
}

impl From<Short> for MapRefused {
    ghost use Rattle.std.specs.Prelude.{◌≡◌};
    ghost use Rattle.mon_bytes.specs.declared.command.MapRefused.TheVariants.{Form};

    ghost from_gives = { λ s e. e ≡ Form s.at };

    fn from(s: Short) -> MapRefused {
        MapRefused::Form { at: s.at }
    }
}

impl From<OutOfMemory> for MapRefused {
    ghost use Rattle.std.specs.Prelude.{◌≡◌};
    ghost use Rattle.mon_bytes.specs.declared.command.MapRefused.TheVariants.{OutOfMemory as no_memory};

    ghost from_gives = { λ _ e. e ≡ no_memory };

    fn from(_e: OutOfMemory) -> MapRefused {
        MapRefused::OutOfMemory
    }
}
