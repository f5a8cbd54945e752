//! A monitor's core.

ghost use Rattle.std.specs.Prelude.{◌≡◌, None, OnOk};
ghost use Rattle.std.specs.Option.{option_copied, option_map};
ghost use Rattle.mon_bounds.specs.Fitting.{IsValidInput};
ghost use Rattle.mon_msg.specs.Protocol.Readings.{Readings, readings_of};
ghost use Rattle.mon_msg.specs.Protocol.State.{booting};
ghost use Rattle.mon_msg.specs.Protocol.Timers.{due};
ghost use Rattle.mon_wire.specs.declared.request.Service as services;
ghost use Rattle.svc_core.specs.Cache.{Follows, known};
ghost use Rattle.mon_core.specs.Known.{known_by_then};
ghost use Rattle.mon_core.specs.Reacts.{Reacts};
ghost use Rattle.mon_core.specs.Rows.{AnswersInput, IsReady};
ghost use Rattle.mon_event.specs.State.{state_of};

use crate::CoreStop;
use crate::inputs::run;
use crate::joining::joined;
use crate::names::see_named;
use crate::reaction::Reaction;
use crate::showing::show;
use election_rules::Rule;
use mon_bytes::Items;
use mon_event::{Event, State};
use mon_kv::Kv;
use mon_msg::input::Input;
use mon_msg::{Me, Phase, Request, Service, ShownMap, Timer};
use mon_stored::Here;
use mon_tx::Transaction;
use mon_types::{Member, Moment};
use std::alloc::Global;
use std::marker::Model;
use std::mem;
use svc_core::Cache;

/// One monitor without its store: what it remembers, and the services' maps that it keeps.
#[derive(Drop)]
pub struct Core {
    me: Me,
    event: Event,
    cache: Cache,
}

impl Model for Core {
    ghost use Rattle.std.specs.Coded.{codes};
    ghost use Rattle.map_kv.specs.contracts.map.KvMap as kv_map;
    ghost use Rattle.mon_core.specs.Core.{Monitor};
    ghost use Rattle.mon_core.specs.Rows.{AnswersInput, IsReady};

    ghost Value = { Monitor };

    ghost coded = { Prim.hlevel (codes, kv_map.the_row.coded) };

    ghost use Rattle.mon_event.specs.State.{state_of};

    ghost view = { λ c. record { me = c.me; state = state_of c.event.state; cache = c.cache } };

    ghost invariant = { λ c. IsReady c.me c.event };
}

/// What the core does at an input, before its transaction is joined.
fn played(
    here: &Here<'_>,
    cache: &mut Cache,
    event: &mut Event,
    input: &Input,
) -> Result<(), CoreStop>
    requires follows { Follows cache.old (readings_of here.now.kv.now) }
    requires comes { IsValidInput input.now }
    requires ready { IsReady here.now.me.now event.old }
    ensures comes { AnswersInput here.now.me.now here.now.kv.now here.now.time event.old input.now event.new result }
    ensures known { OnOk result ((s : services.Service) → known cache.new s
        ≡ known_by_then here.now.me.now here.now.time (readings_of here.now.kv.now) (state_of event.old.state) input.now s (known cache.old s)) }
    ensures follows { OnOk result (Follows cache.new (readings_of here.now.kv.now)) }
{
    match input {
        Input::Client(session, request) => match request {
            Request::Show { service } => Ok(show(here, cache, event, *session, *service)?),
            Request::Set { .. }
            | Request::Remove { .. }
            | Request::Log { .. }
            | Request::Since { .. } => run(here, event, input),
        },
        Input::Start | Input::Deliver(_) | Input::Timer(_) => run(here, event, input),
    }
}

/// The reaction to an input, in an event that has written and sent nothing yet. Its writes and messages move into the
/// reaction, so that the next event begins with none.
fn react_to(
    here: &Here<'_>,
    cache: &mut Cache,
    event: &mut Event,
    input: &Input,
) -> Result<Reaction, CoreStop>
    requires follows { Follows cache.old (readings_of here.now.kv.now) }
    requires comes { IsValidInput input.now }
    requires ready { IsReady here.now.me.now event.old }
    ensures reacts { Reacts (record { me = here.now.me.now; state = state_of event.old.state; cache = cache.old })
        (record { me = here.now.me.now; state = state_of event.new.state; cache = cache.new }) here.now.kv.now here.now.time input.now result }
    ensures ready { OnOk result (IsReady here.now.me.now event.new) }
{
    played(here, cache, event, input)?;
    let written = mem::replace(&mut event.tx, Transaction::new(here.alloc));
    let out = mem::replace(&mut event.out, Items::new(here.alloc));
    let tx = joined(here.alloc, written)?;
    cache.follow(here.alloc, &tx)?;
    see_named(out.as_slice());
    Ok(Reaction { tx, out })
}

/// Drops an event that was broken off, and all that its monitor remembered. The monitor is then one that isn't started.
fn forget(alloc: Global, me: &Me, event: &mut Event)
    ensures { IsReady me.now event.new }
{
    let begun = Event::begun(alloc, State::booting(alloc, me.member.rank));
    drop(mem::replace(event, begun));
}

impl Core {
    /// A monitor that isn't started yet. It knows no service, so it follows any store, and takes no memory.
    pub fn boot(alloc: Global, member: Member, rule: Rule) -> Core
        ensures member { result.me.member ≡ member }
        ensures rule { result.me.rule ≡ rule }
        ensures state { result.state ≡ booting member.rank }
        ensures known { (s : services.Service) → known result.cache s ≡ None }
        ensures follows { (w : Readings) → Follows result.cache w }
    {
        let state = State::booting(alloc, member.rank);
        Core {
            me: Me { member, rule },
            event: Event::begun(alloc, state),
            cache: Cache::empty(),
        }
    }

    /// The phase of the monitor.
    pub fn phase(&self) -> Phase
        ensures { result ≡ self.now.state.phase }
    {
        self.event.state.phase
    }

    /// The timer that fires next, and its time. It is the one set for the least time, and of several the first kind.
    /// `None` if and only if no timer is set.
    pub fn due(&self) -> Option<(Timer, Moment)>
        ensures { result ≡ due self.now.state.timers }
    {
        self.event.state.timers.due()
    }

    /// The map of a service that the core keeps, or `None` if and only if the core doesn't know it. It takes no memory.
    pub fn cached(&self, service: Service) -> Option<&ShownMap>
        ensures { option_copied result ≡ option_map (λ k. k.map) (known self.now.cache service) }
    {
        self.cache.cached(service)
    }

    /// Returns what the monitor does at an input at a time, in milliseconds: the protocol's reaction. `kv` is the
    /// monitor's store, and the maps of the services that the core keeps have to be those of this store. They are those
    /// of the store again once the caller applied the transaction. A message, a session's number and a value must be
    /// within their limits; then so is all that is written or sent. `Spent` names a number that would pass 2^62. After
    /// a `CoreStop` the core must not be used again.
    pub fn react(
        &mut self,
        alloc: Global,
        kv: &Kv,
        input: &Input,
        now: Moment,
    ) -> Result<Reaction, CoreStop>
        requires follows { Follows self.old.cache (readings_of kv.now) }
        requires comes { IsValidInput input.now }
        ensures { Reacts self.old self.new kv.now now input.now result }
    {
        let here = Here {
            alloc,
            kv,
            me: &self.me,
            time: now,
        };
        let done = react_to(&here, &mut self.cache, &mut self.event, input);
        if done.is_err() {
            forget(alloc, &self.me, &mut self.event);
        }
        done
    }
}
