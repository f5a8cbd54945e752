ghost use Rattle.std.specs.Prelude.{◌≡◌, IfOk};

use mon_bytes::{Name, OutOfMemory, Text};
use mon_types::Version;
use std::alloc::Global;

/// A client's request: the client, and the number that it gave the request.
#[derive(Clone, Copy, PartialEq, Eq)]
pub struct Session {
    pub client: u32,
    pub id: u64,
}

/// A service that the monitors keep.
#[derive(Clone, Copy, PartialEq, Eq)]
pub enum Service {
    /// The key-value map.
    Kv,
    /// The cluster log.
    Log,
}

/// What a client asks of a monitor.
#[derive(Drop)]
pub enum Request {
    /// Sets a key of the key-value map.
    Set { key: Name, value: Text },
    /// Takes a key of the key-value map away.
    Remove { key: Name },
    /// Appends a text to the cluster log.
    Log { text: Text },
    /// Shows a service's map.
    Show { service: Service },
    /// Returns what changed a service's map after this version of the service.
    Since { service: Service, version: Version },
}

impl Request {
    /// An equal request.
    pub fn copy(&self, alloc: Global) -> Result<Request, OutOfMemory>
        ensures { IfOk result (λ request. request ≡ self.now) }
    {
        Ok(match self {
            Request::Set { key, value } => Request::Set {
                key: key.copy(alloc)?,
                value: value.copy(alloc)?,
            },
            Request::Remove { key } => Request::Remove {
                key: key.copy(alloc)?,
            },
            Request::Log { text } => Request::Log {
                text: text.copy(alloc)?,
            },
            Request::Show { service } => Request::Show { service: *service },
            Request::Since { service, version } => Request::Since {
                service: *service,
                version: *version,
            },
        })
    }
}
