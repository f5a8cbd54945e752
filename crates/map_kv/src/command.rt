ghost use Rattle.mon_bytes.specs.Makes.{Makes};
ghost use Rattle.std.specs.Prelude.{IfOk};
ghost use Rattle.mon_bytes.specs.declared.command.Command.TheVariants.{Set, Remove};
ghost use Rattle.map_kv.specs.Made.{IsOfKv, made};
ghost use Rattle.map_kv.specs.Text.{IncFits};

use crate::inc::KvInc;
use crate::map::KvMap;
use mon_bytes::{Command, CommandRefused, Name, Text};
use std::alloc::Global;

/// The most bytes of a value.
pub const MOST_KV_VALUE: u64 = 65536;

/// The most bytes of an encoded map.
pub const MOST_KV_MAP: u64 = 393216;

fn set(alloc: Global, map: &KvMap, key: &Name, value: &Text) -> Result<KvInc, CommandRefused>
    ensures made { Makes result (made map.now (Set key.now value.now)) }
    ensures form { IfOk result IncFits }
{
    let len = value.as_slice().len() as u64;
    if len > MOST_KV_VALUE {
        return Err(CommandRefused::TooLong {
            len,
            most: MOST_KV_VALUE,
        });
    }
    let would_be = map.size_with(key, value);
    if would_be > MOST_KV_MAP {
        return Err(CommandRefused::MapFull { would_be });
    }
    Ok(KvInc::Set {
        key: key.copy(alloc)?,
        value: value.copy(alloc)?,
    })
}

fn remove(alloc: Global, map: &KvMap, key: &Name) -> Result<KvInc, CommandRefused>
    ensures made { Makes result (made map.now (Remove key.now)) }
    ensures form { IfOk result IncFits }
{
    if map.get(key.as_slice()).is_none() {
        return Err(CommandRefused::NoSuch);
    }
    Ok(KvInc::Remove {
        key: key.copy(alloc)?,
    })
}

/// The incremental of a command other than `Log`. Returns `NoSuch` if and only if a key that isn't there is to be
/// removed, `TooLong` if and only if a value is longer than 65,536 bytes, and `MapFull` if and only if the value
/// isn't too long and the map after it would be longer than 393,216 bytes.
pub fn make(alloc: Global, map: &KvMap, command: &Command) -> Result<KvInc, CommandRefused>
    requires { IsOfKv command.now }
    ensures made { Makes result (made map.now command.now) }
    ensures form { IfOk result IncFits }
{
    match command {
        Command::Set { key, value } => set(alloc, map, key, value),
        Command::Remove { key } => remove(alloc, map, key),
        Command::Log { .. } => unreachable!(),
    }
}
