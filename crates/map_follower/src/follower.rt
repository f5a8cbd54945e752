ghost use Rattle.std.specs.Prelude.{◌≡◌, ◌+◌, ◌≤◌, ◌^◌, length, IfOk, OnErr};
ghost use Rattle.mon_wire.specs.declared.request.Request.TheVariants as request;
ghost use Rattle.map_follower.specs.Copies.{first, service_of, is_of, shown_taken, since_taken, taken};

use crate::stepping::{Unapplied, applied_from};
use crate::took::Took;
use map_kv::KvMap;
use map_log::LogMap;
use mon_bytes::{Bytes, OutOfMemory};
use mon_msg::{Reply, Request, Service, ShownMap};
use mon_types::{GREATEST, Version};
use std::alloc::Global;

/// A client's copy of a service's map. The kind of the map is the service.
#[derive(Drop)]
pub struct Follower {
    version: Version,
    map: ShownMap,
}

/// Whether the map is of this service.
fn is_of(service: Service, map: &ShownMap) -> bool
    ensures { result ≡ is_of service map.now }
{
    match (service, map) {
        (Service::Kv, ShownMap::Kv(_)) => true,
        (Service::Log, ShownMap::Log(_)) => true,
        _ => false,
    }
}

impl Follower {
    /// The empty map at version 0. It takes no memory.
    pub fn new(alloc: Global, service: Service) -> Follower
        ensures { result ≡ first service }
    {
        let map = match service {
            Service::Kv => ShownMap::Kv(KvMap::new(alloc)),
            Service::Log => ShownMap::Log(LogMap::new(alloc)),
        };
        Follower {
            version: Version::known(0),
            map,
        }
    }

    /// The service that is followed.
    pub fn service(&self) -> Service
        ensures { result ≡ service_of self.now.map }
    {
        match &self.map {
            ShownMap::Kv(_) => Service::Kv,
            ShownMap::Log(_) => Service::Log,
        }
    }

    /// The version of the copy.
    pub fn version(&self) -> u64
        ensures { result ≡ self.now.version }
    {
        self.version.get()
    }

    /// The copy.
    pub fn map(&self) -> &ShownMap
        ensures { result.now ≡ self.now.map }
    {
        &self.map
    }

    /// What to ask for next: what changed after the copy's version.
    pub fn ask(&self) -> Request
        ensures value { result ≡ request.Since (service_of self.now.map) self.now.version }
        ensures most { self.now.version ≤ 2 ^ 62 }
    {
        Request::Since {
            service: self.service(),
            version: Version::known(self.version.get()),
        }
    }

    fn take_shown(&mut self, version: Version, map: &ShownMap) -> Result<Took, OutOfMemory>
        ensures ok { IfOk result (λ took. shown_taken self.old version map.now ≡ (self.new, took)) }
        ensures err { OnErr result (self.new ≡ self.old) }
    {
        if version.get() <= self.version.get() {
            return Ok(Took::Known {
                version: self.version,
            });
        }
        self.map = map.copy()?;
        self.version = version;
        Ok(Took::Newer { version })
    }

    fn take_since(
        &mut self,
        alloc: Global,
        from: Version,
        reached: Version,
        updates: &[Bytes],
    ) -> Result<Took, OutOfMemory>
        requires { reached ≡ from + length updates.now }
        ensures ok { IfOk result (λ took. since_taken self.old from updates.now ≡ (self.new, took)) }
        ensures err { OnErr result (self.new ≡ self.old) }
    {
        let version = self.version.get();
        if from.get() > version {
            return Ok(Took::Ahead { from });
        }
        if reached.get() <= version {
            return Ok(Took::Known {
                version: self.version,
            });
        }
        let known = version - from.get();
        match applied_from(alloc, &self.map, known, &updates[known as usize..]) {
            Ok(map) => {
                self.map = map;
                self.version = reached;
                Ok(Took::Newer { version: reached })
            }
            Err(Unapplied::Bad { index }) => Ok(Took::Bad { index }),
            Err(Unapplied::OutOfMemory) => Err(OutOfMemory),
        }
    }

    /// Takes a reply. Only `Newer` changes the copy, and never to an older version; after `OutOfMemory` it is
    /// unchanged.
    pub fn take(&mut self, alloc: Global, reply: &Reply) -> Result<Took, OutOfMemory>
        ensures ok { IfOk result (λ took. taken self.old reply.now ≡ (self.new, took)) }
        ensures err { OnErr result (self.new ≡ self.old) }
    {
        match reply {
            Reply::Shown {
                service,
                version,
                map,
                ..
            } => {
                if !is_of(*service, &self.map) || !is_of(*service, map) {
                    return Ok(Took::Other);
                }
                self.take_shown(*version, map)
            }
            Reply::Since {
                service,
                from,
                incrementals,
                ..
            } => {
                let updates = incrementals.as_slice();
                let reached = from.get() + updates.len() as u64;
                if !is_of(*service, &self.map) || reached > GREATEST {
                    return Ok(Took::Other);
                }
                self.take_since(alloc, *from, Version::known(reached), updates)
            }
            _ => Ok(Took::Other),
        }
    }
}
