ghost use Rattle.std.specs.Prelude.{◌≡◌, IfOk};

use crate::request::Service;
use map_kv::KvMap;
use map_log::LogMap;
use mon_bytes::{Bytes, Items, OutOfMemory};
use mon_types::Version;
use std::alloc::Global;

/// A service's map, as a client is shown it.
#[derive(Drop)]
pub enum ShownMap {
    /// The map of the key-value service.
    Kv(KvMap),
    /// The cluster log.
    Log(LogMap),
}

impl ShownMap {
    /// An equal map.
    pub fn copy(&self) -> Result<ShownMap, OutOfMemory>
        ensures { IfOk result (λ map. map ≡ self.now) }
    {
        match self {
            ShownMap::Kv(map) => Ok(ShownMap::Kv(map.copy()?)),
            ShownMap::Log(map) => Ok(ShownMap::Log(map.copy()?)),
        }
    }
}

/// What a monitor answers a client.
#[derive(Drop)]
pub enum Reply {
    /// The command is in this version of the log.
    Done {
        version: Version,
    },
    /// The service's map, at this version of the log and of the service.
    Shown {
        service: Service,
        paxos: Version,
        version: Version,
        map: ShownMap,
    },
    /// The service's incrementals after version `from`, and whether there are more of them.
    Since {
        service: Service,
        from: Version,
        incrementals: Items<Bytes>,
        more: bool,
    },
    /// The key to remove isn't there.
    NoSuch,
    /// The value or text has `len` bytes, more than the `most` that are allowed.
    TooLong {
        len: u64,
        most: u64,
    },
    /// The service's map would take this many bytes, more than it may.
    MapFull {
        would_be: u64,
    },
    /// The monitor is in no quorum.
    Unavailable,
    /// The monitor's last version `has` can't be read now. `lease` is true if the lease is valid or the map has no
    /// other monitor.
    NotReadable {
        has: Version,
        lease: bool,
    },
    /// This many commands wait already.
    Busy {
        waiting: u64,
    },
}

impl Reply {
    /// An equal reply.
    pub fn copy(&self, alloc: Global) -> Result<Reply, OutOfMemory>
        ensures { IfOk result (λ reply. reply ≡ self.now) }
    {
        Ok(match self {
            Reply::Done { version } => Reply::Done { version: *version },
            Reply::Shown {
                service,
                paxos,
                version,
                map,
            } => Reply::Shown {
                service: *service,
                paxos: *paxos,
                version: *version,
                map: map.copy()?,
            },
            Reply::Since {
                service,
                from,
                incrementals,
                more,
            } => Reply::Since {
                service: *service,
                from: *from,
                incrementals: incrementals.copy(alloc)?,
                more: *more,
            },
            Reply::NoSuch => Reply::NoSuch,
            Reply::TooLong { len, most } => Reply::TooLong {
                len: *len,
                most: *most,
            },
            Reply::MapFull { would_be } => Reply::MapFull {
                would_be: *would_be,
            },
            Reply::Unavailable => Reply::Unavailable,
            Reply::NotReadable { has, lease } => Reply::NotReadable {
                has: *has,
                lease: *lease,
            },
            Reply::Busy { waiting } => Reply::Busy { waiting: *waiting },
        })
    }
}
