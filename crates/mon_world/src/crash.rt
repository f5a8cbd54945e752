//! An event in which a disk of its monitor fails.

ghost use Rattle.std.specs.Prelude.{◌≡◌, ◌≤◌, false, IfOk, length};
ghost use Rattle.mon_bounds.specs.Fitting.{IsValidInput};
ghost use Rattle.mon_msg.specs.Protocol.Reaction.{reaction};
ghost use Rattle.mon_msg.specs.Protocol.Readings.{readings_of};
ghost use Rattle.mon_msg.specs.declared.input.Input.TheVariants.{Start};
ghost use Rattle.mon_site.specs.Calm.{Rest};
ghost use Rattle.mon_site.specs.Faults.{HasFault, Rests};
ghost use Rattle.mon_tx.specs.Map.{Store as Map, apply};
ghost use Rattle.mon_tx.specs.Text.{text, most};
ghost use Rattle.mon_types.specs.declared.member.Member.{Member};
ghost use Rattle.mon_wire.specs.declared.phase.Phase.TheVariants.{Booting};
ghost use Rattle.quorum_model.specs.declared.calls.TheConstants.{FIRST_OPENING};
ghost use Rattle.quorum_model.specs.Files.{Files};
ghost use Rattle.svc_core.specs.Cache.{Follows};
ghost use Rattle.mon_world.specs.Crashes.{Ends, EndsWith, WithFault, Crashes, MayBe, counted, written};

use crate::stop::{WorldStop, stop_of};
use mon_bytes::OutOfMemory;
use mon_core::{Core, Input};
use mon_disk::{MemoryDisk, NodeDisks};
use mon_site::{Begun, Ended, InjectedFault, finish, inject_one, open, opening_count, settle_both};
use mon_store::Store;
use mon_stored::Stored;
use mon_tx::Transaction;
use mon_types::{Member, Moment, Version};
use std::alloc::Global;

/// What a transaction leaves if it is kept: the last version, and whether the store is marked then.
#[derive(Clone, Copy)]
pub(crate) struct Written {
    pub(crate) last: Version,
    pub(crate) marked: bool,
}

/// What remains of a monitor that stopped in an event: its disks, and what its transaction left, if that was kept.
#[derive(Drop)]
pub(crate) struct Remains {
    pub(crate) disks: NodeDisks<MemoryDisk>,
    pub(crate) kept: Option<Written>,
}

/// The last version and the mark that the store's map would have after a transaction.
fn written_by(
    alloc: Global,
    store: &Store<MemoryDisk>,
    tx: &Transaction,
) -> Result<Written, OutOfMemory>
    requires { store.now.broken ≡ false }
    ensures { IfOk result (λ w. w ≡ written (apply tx.now store.now.kv)) }
{
    let stored = Stored::after(alloc, store.kv(), tx)?;
    Ok(Written {
        last: stored.last(),
        marked: stored.is_marked(),
    })
}

/// Applies a transaction and the due checkpoint to an open store until the injected fault. Then the store is closed,
/// and its disks settle.
fn end_with(
    alloc: Global,
    store: Store<MemoryDisk>,
    tx: &Transaction,
    injected: InjectedFault,
) -> Result<Remains, WorldStop>
    requires fault { WithFault injected store }
    requires short { length (text tx.now) ≤ most }
    ensures { (member : Member) (m : Map) (f : Files)
        → HasFault injected.disk injected.call injected.image member m f store
        → EndsWith injected member m f tx.now result }
{
    let written = written_by(alloc, &store, tx)?;
    match finish(store, tx, injected) {
        Ok(Ended { disks, kept }) => Ok(Remains {
            disks: settle_both(disks)?,
            kept: kept.then_some(written),
        }),
        Err(stop) => Err(stop_of(stop)),
    }
}

/// Lets the core react over an open store, and applies its transaction until the injected fault. The failing call is
/// counted from the end of the opening.
fn end(
    alloc: Global,
    store: Store<MemoryDisk>,
    core: &mut Core,
    injected: InjectedFault,
    input: &Input,
    now: Moment,
) -> Result<Remains, WorldStop>
    requires fault { WithFault injected store }
    requires follows { Follows core.old.cache (readings_of store.kv) }
    requires comes { IsValidInput input.now }
    ensures { (m : Map) (f : Files) → HasFault injected.disk injected.call injected.image core.old.me.member m f store
        → Ends injected core.old.me.member m f (reaction core.old.me now m core.old.state input.now) result }
{
    let reaction = core.react(alloc, store.kv(), input, now)?;
    end_with(alloc, store, &reaction.tx, injected)
}

/// The fault with its call counted from the first call of the opening. An event counts a start's failing call so, and
/// that of any other input from the opening's end, after `opening` calls.
fn counted_from(injected: InjectedFault, input: &Input, opening: u64) -> InjectedFault
    requires may { MayBe injected }
    requires opening { opening ≤ FIRST_OPENING }
    ensures { result ≡ counted injected input.now opening }
{
    match input {
        Input::Start => injected,
        Input::Deliver(_) | Input::Timer(_) | Input::Client(..) => InjectedFault {
            disk: injected.disk,
            call: injected.call + opening,
            image: injected.image,
        },
    }
}

/// Lets a disk of a monitor fail while the monitor takes this input. Then its disks settle.
pub(crate) fn crash(
    alloc: Global,
    member: Member,
    mut disks: NodeDisks<MemoryDisk>,
    core: &mut Core,
    injected: InjectedFault,
    input: &Input,
    now: Moment,
) -> Result<Remains, WorldStop>
    requires member { core.old.me.member ≡ member }
    requires rests { Rest member disks.a disks.b }
    requires follows { (m : Map) (f : Files) → Rests member m f disks.a disks.b →
        Follows core.old.cache (readings_of m) }
    requires comes { IsValidInput input.now }
    requires starts { input.now ≡ Start → core.old.state.phase ≡ Booting }
    requires may { MayBe injected }
    ensures { (m : Map) (f : Files) → Rests member m f disks.a disks.b
        → Crashes injected member m f input.now (reaction core.old.me now m core.old.state input.now) result }
{
    let opening = opening_count(&mut disks, injected.disk)?;
    let from = counted_from(injected, input, opening);
    match open(alloc, inject_one(disks, from), member, from)? {
        Begun::Open(store) => {
            let behind = InjectedFault {
                disk: from.disk,
                call: from.call - opening,
                image: from.image,
            };
            end(alloc, store, core, behind, input, now)
        }
        Begun::Failed(disks) => Ok(Remains {
            disks: settle_both(disks)?,
            kept: None,
        }),
    }
}
