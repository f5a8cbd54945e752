//! A cache of the services' maps, which follows a store from transaction to transaction.

ghost use Rattle.std.specs.Prelude.{◌≡◌, ℕ, ◌+◌, ◌-◌, ◌≤◌, ◌^◌, min, Some, None, IfOk, OnOk, OnErr, is_some};
ghost use Rattle.std.specs.Borrow.{sem};
ghost use Rattle.std.specs.Io.BufRead.{Rests};
ghost use Rattle.std.specs.Option.{option_copied, option_map};
ghost use Rattle.mon_tx.specs.Map.{Store, apply};
ghost use Rattle.mon_wire.specs.declared.request.Service as services;
ghost use Rattle.mon_msg.specs.Protocol.Services.{read_map};
ghost use Rattle.mon_msg.specs.Protocol.Readings.{readings_of};
ghost use Rattle.svc_core.specs.Cache.{kept_of, known, known_in, map_in, Follows, known_once_read, known_after, risen, applied, Answers, IsAnswered};
ghost use Rattle.svc_core.specs.contracts.cache.Cache.{the_row};

use crate::progress::{Progress, changes};
use crate::reading::{Reading, read_whole};
use crate::row::{full_latest, last_version};
use mon_bytes::OutOfMemory;
use mon_kv::Kv;
use mon_msg::{Service, ShownMap};
use mon_tx::{Op, Transaction};
use mon_types::Version;
use std::alloc::Global;
use std::mem;

/// A service's map, and its version.
#[derive(Drop)]
pub(crate) struct Known {
    pub(crate) version: Version,
    pub(crate) map: ShownMap,
}

/// What the cache has of a service.
#[derive(Drop)]
pub(crate) enum Kept {
    Nothing,
    /// A known map: it follows the store's transactions.
    Followed(Known),
    /// A map that was read once, and isn't followed.
    Read(ShownMap),
}

/// A cache of the services' maps, each with its version.
#[derive(Drop)]
pub struct Cache {
    kv: Kept,
    log: Kept,
}

impl Kept {
    fn is_known(&self) -> bool
        ensures { result ≡ is_some (known_in self.now) }
    {
        match self {
            Kept::Followed(_) => true,
            Kept::Nothing | Kept::Read(_) => false,
        }
    }

    /// The map that is kept.
    fn map(&self) -> Option<&ShownMap>
        ensures { option_copied result ≡ map_in self.now }
    {
        match self {
            Kept::Nothing => None,
            Kept::Followed(known) => Some(&known.map),
            Kept::Read(map) => Some(map),
        }
    }

    /// The map that is known.
    fn known(&self) -> Option<&ShownMap>
        ensures { option_copied result ≡ option_map (λ k. k.map) (known_in self.now) }
    {
        match self {
            Kept::Followed(known) => Some(&known.map),
            Kept::Nothing | Kept::Read(_) => None,
        }
    }

    /// Follows a transaction, and returns how many incrementals were applied to what is still known.
    fn follow(&mut self, alloc: Global, service: Service, ops: &[Op]) -> Result<u64, OutOfMemory>
        ensures known { OnOk result (known_in self.new ≡ known_after service ops.now (known_in self.old)) }
        ensures applied { IfOk result (λ n. n ≡ risen (known_in self.old) (known_in self.new)) }
        ensures most { IfOk result (λ n. n ≤ 2 ^ 62) }
    {
        let before = mem::replace(self, Kept::Nothing);
        let Followed { kept, applied } = kept_after(alloc, service, before, ops)?;
        drop(mem::replace(self, kept));
        Ok(applied)
    }
}

/// Reads a service, and returns what the cache then has of it. The map is known if its reading reaches the last version
/// and no full map is newer.
fn read_kept(alloc: Global, kv: &Kv, service: Service) -> Result<Kept, OutOfMemory>
    ensures known { IfOk result (λ kept. known_in kept ≡ known_once_read (readings_of kv.now) service None) }
    ensures map { IfOk result (λ kept. map_in kept ≡ Some (read_map (readings_of kv.now) service)) }
{
    let last = last_version(kv, service);
    let Reading { map, reached } = read_whole(alloc, kv, service)?;
    if reached && full_latest(kv, service) <= last {
        return Ok(Kept::Followed(Known {
            version: Version::known(last),
            map,
        }));
    }
    Ok(Kept::Read(map))
}

/// What the cache has of a service after a transaction, and how many incrementals were applied if its map is still
/// known.
#[derive(Drop)]
struct Followed {
    kept: Kept,
    applied: u64,
}

fn follow_known(
    alloc: Global,
    service: Service,
    known: Known,
    ops: &[Op],
) -> Result<Followed, OutOfMemory>
    ensures known { IfOk result (λ f. known_in f.kept ≡ known_after service ops.now (Some known)) }
    ensures applied { IfOk result (λ f. f.applied ≡ risen (Some known) (known_in f.kept)) }
{
    let Known { version, map } = known;
    let before = version.get();
    let mut progress = Progress {
        version: before,
        map,
        version_written: true,
    };
    let all = changes(alloc, service, ops, &mut progress)?;
    let Progress {
        version,
        map,
        version_written,
    } = progress;
    if !all || !version_written {
        return Ok(Followed {
            kept: Kept::Nothing,
            applied: 0,
        });
    }
    Ok(Followed {
        kept: Kept::Followed(Known {
            version: Version::known(version),
            map,
        }),
        applied: version.saturating_sub(before),
    })
}

fn kept_after(
    alloc: Global,
    service: Service,
    kept: Kept,
    ops: &[Op],
) -> Result<Followed, OutOfMemory>
    ensures known { IfOk result (λ f. known_in f.kept ≡ known_after service ops.now (known_in kept)) }
    ensures applied { IfOk result (λ f. f.applied ≡ risen (known_in kept) (known_in f.kept)) }
    ensures most { IfOk result (λ f. f.applied ≤ 2 ^ 62) }
{
    match kept {
        Kept::Followed(known) => follow_known(alloc, service, known, ops),
        Kept::Nothing | Kept::Read(_) => Ok(Followed {
            kept: Kept::Nothing,
            applied: 0,
        }),
    }
}

impl Cache {
    /// A cache that knows no service. It takes no memory.
    pub fn empty() -> Cache
        ensures { (s : services.Service) → known result s ≡ None }
    {
        Cache {
            kv: Kept::Nothing,
            log: Kept::Nothing,
        }
    }

    fn kept(&self, service: Service) -> &Kept
        ensures { result.now ≡ kept_of self.now service }
    {
        match service {
            Service::Kv => &self.kv,
            Service::Log => &self.log,
        }
    }

    /// The map of a service that is known, and `None` if and only if it isn't known. It takes no memory.
    pub fn cached(&self, service: Service) -> Option<&ShownMap>
        ensures { option_copied result ≡ option_map (λ k. k.map) (known self.now service) }
    {
        self.kept(service).known()
    }

    /// Forgets every service.
    fn forget(&mut self)
        ensures { (s : services.Service) → known self.new s ≡ None }
    {
        drop(mem::replace(self, Cache::empty()));
    }

    /// Follows the changes of a transaction, and returns how many incrementals were applied.
    fn follow_ops(&mut self, alloc: Global, ops: &[Op]) -> Result<u64, OutOfMemory>
        ensures known { OnOk result ((s : services.Service) →
            known self.new s ≡ known_after s ops.now (known self.old s)) }
        ensures applied { IfOk result (λ n. n ≡ applied self.old self.new) }
    {
        let kv = self.kv.follow(alloc, Service::Kv, ops)?;
        let log = self.log.follow(alloc, Service::Log, ops)?;
        Ok(kv + log)
    }

    /// Makes a cache that follows a store into one that follows the store after a transaction, and returns how many
    /// incrementals were applied to the maps that were known before and are known afterwards. After `OutOfMemory` the
    /// cache is empty.
    pub fn follow(&mut self, alloc: Global, tx: &Transaction) -> Result<u32, OutOfMemory>
        ensures known { OnOk result ((s : services.Service) →
            known self.new s ≡ known_after s tx.now (known self.old s)) }
        ensures applied { IfOk result (λ n. n ≡ min (applied self.old self.new) (2 ^ 32 - 1)) }
        ensures follows { OnOk result ((m : Store) → Follows self.old (readings_of m) →
            Follows self.new (readings_of (apply tx.now m))) }
        ensures empty { OnErr result ((s : services.Service) → known self.new s ≡ None) }
    {
        match self.follow_ops(alloc, tx.ops()) {
            Ok(applied) => Ok(u32::try_from(applied).unwrap_or(u32::MAX)),
            Err(e) => {
                self.forget();
                Err(e)
            }
        }
    }

    /// Replaces what the cache has of a service.
    fn keep(&mut self, service: Service, kept: Kept)
        ensures keeps { kept_of self.new service ≡ kept }
        ensures others { (s : services.Service) → (s ≡ service → ⊥) →
            kept_of self.new s ≡ kept_of self.old s }
    {
        let before = match service {
            Service::Kv => mem::replace(&mut self.kv, kept),
            Service::Log => mem::replace(&mut self.log, kept),
        };
        drop(before);
    }

    /// Reads a service that isn't known.
    fn learn(&mut self, alloc: Global, kv: &Kv, service: Service) -> Result<(), OutOfMemory>
        requires { Follows self.old (readings_of kv.now) }
        ensures ok { OnOk result (IsAnswered self.old self.new (readings_of kv.now) service) }
        ensures err { OnErr result ((s : services.Service) → known self.new s ≡ None) }
    {
        if self.kept(service).is_known() {
            return Ok(());
        }
        match read_kept(alloc, kv, service) {
            Ok(kept) => {
                self.keep(service, kept);
                Ok(())
            }
            Err(e) => {
                self.forget();
                Err(e)
            }
        }
    }

    /// What `read` returns of a store that the cache follows. A service that wasn't known is known afterwards if and
    /// only if its reading reaches its last version and no full map is newer than that. After `OutOfMemory` the cache
    /// is empty.
    pub fn get(
        &mut self,
        alloc: Global,
        kv: &Kv,
        service: Service,
    ) -> Result<&ShownMap, OutOfMemory>
        requires { Follows self.old (readings_of kv.now) }
        ensures* after { sem 𝓛 (Rests the_row self.entry (Answers self.old (readings_of kv.now) service result)) }
        ensures map { IfOk result (λ map. map.now ≡ read_map (readings_of kv.now) service) }
    {
        self.learn(alloc, kv, service)?;
        match self.kept(service).map() {
            Some(map) => Ok(map),
            None => unreachable!(),
        }
    }
}
