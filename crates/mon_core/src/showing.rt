//! A client is shown a service's map, from what the core keeps.

ghost use Rattle.std.specs.Prelude.{◌≡◌, Ok, if◌then◌else◌, ◌&&◌, unwrap_or, IfOk, OnOk};
ghost use Rattle.mon_msg.specs.Protocol.Phases.{is_member};
ghost use Rattle.mon_msg.specs.declared.input.Input.TheVariants as input;
ghost use Rattle.mon_wire.specs.declared.request.Request.TheVariants as request;
ghost use Rattle.mon_msg.specs.Protocol.Reads.{shown};
ghost use Rattle.mon_msg.specs.Protocol.Readings.{readings_of};
ghost use Rattle.mon_wire.specs.declared.request.Service as services;
ghost use Rattle.mon_client.specs.Rows.{unreadable};
ghost use Rattle.svc_core.specs.Cache.{Follows, known, known_once_read};
ghost use Rattle.mon_core.specs.Known.{known_by_then};
ghost use Rattle.mon_core.specs.Rows.{AnswersInput, IsReady};
ghost use Rattle.mon_event.specs.State.{state_of};

use mon_bytes::OutOfMemory;
use mon_client::unreadable;
use mon_event::{Event, view};
use mon_kv::Kv;
use mon_msg::{Reply, Service, Session, View};
use mon_stored::{Here, Stored};
use mon_types::Version;
use std::alloc::Global;
use svc_core::{Cache, last_version};

/// The reply with the map of a service that the core keeps. The core reads the map first if it doesn't know it.
fn shown(alloc: Global, kv: &Kv, cache: &mut Cache, service: Service) -> Result<Reply, OutOfMemory>
    requires { Follows cache.old (readings_of kv.now) }
    ensures reply { IfOk result (λ reply. reply ≡ shown (readings_of kv.now) service) }
    ensures known { OnOk result (known cache.new service ≡ known_once_read (readings_of kv.now) service
        (known cache.old service)) }
    ensures others { OnOk result ((t : services.Service) → (t ≡ service → ⊥) → known cache.new t ≡ known cache.old t) }
    ensures follows { OnOk result (Follows cache.new (readings_of kv.now)) }
{
    let map = cache.get(alloc, kv, service)?.copy()?;
    Ok(Reply::Shown {
        service,
        paxos: Stored::of(alloc, kv).last(),
        version: Version::known(last_version(kv, service)),
        map,
    })
}

/// The reply to a client that asks for a map: the map, or the refusal if nothing may be read now.
fn map_reply(
    alloc: Global,
    kv: &Kv,
    view: &View,
    cache: &mut Cache,
    service: Service,
) -> Result<Reply, OutOfMemory>
    requires { Follows cache.old (readings_of kv.now) }
    ensures reply { IfOk result (λ reply. reply ≡
        unwrap_or (unreadable (readings_of kv.now) view.now) (shown (readings_of kv.now) service)) }
    ensures known { OnOk result (known cache.new service ≡
        if is_member view.now.phase && view.now.readable then known_once_read (readings_of kv.now) service (known cache.old service)
        else known cache.old service) }
    ensures others { OnOk result ((t : services.Service) → (t ≡ service → ⊥) → known cache.new t ≡ known cache.old t) }
    ensures follows { OnOk result (Follows cache.new (readings_of kv.now)) }
{
    match unreadable(alloc, kv, view) {
        Some(reply) => Ok(reply),
        None => shown(alloc, kv, cache, service),
    }
}

/// A client asks for a service's map. No other input makes a service known.
pub(crate) fn show(
    here: &Here<'_>,
    cache: &mut Cache,
    event: &mut Event,
    session: Session,
    service: Service,
) -> Result<(), OutOfMemory>
    requires follows { Follows cache.old (readings_of here.now.kv.now) }
    requires ready { IsReady here.now.me.now event.old }
    ensures row { OnOk result
        (AnswersInput here.now.me.now here.now.kv.now here.now.time event.old (input.Client session (request.Show service)) event.new (Ok tt)) }
    ensures known { OnOk result ((t : services.Service) → known cache.new t
        ≡ known_by_then here.now.me.now here.now.time (readings_of here.now.kv.now) (state_of event.old.state)
        (input.Client session (request.Show service)) t (known cache.old t)) }
    ensures follows { OnOk result (Follows cache.new (readings_of here.now.kv.now)) }
{
    let view = view(here.alloc, here.kv, here.me, &event.state, here.time);
    let answer = map_reply(here.alloc, here.kv, &view, cache, service)?;
    event.reply(session, answer)?;
    Ok(())
}
