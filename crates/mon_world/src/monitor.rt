//! A monitor with its two disks in memory.

ghost use Rattle.std.specs.Prelude.{◌≡◌, ◌≤◌, Option, None, Some, IfOk, OnOk, length};
ghost use Rattle.std.specs.FinMap.{empty};
ghost use Rattle.mon_bounds.specs.Fitting.{IsValidInput};
ghost use Rattle.mon_kv.specs.Readers.{is_marked};
ghost use Rattle.mon_msg.specs.Protocol.Reaction.{reaction};
ghost use Rattle.mon_msg.specs.Protocol.Readings.{Readings};
ghost use Rattle.mon_msg.specs.Protocol.State.{State, booting};
ghost use Rattle.mon_msg.specs.declared.view.Me.{Me};
ghost use Rattle.mon_site.specs.Calm.{Runs};
ghost use Rattle.mon_site.specs.Faults.{OpensMap, Rests};
ghost use Rattle.mon_site.specs.Times.{OpensEither};
ghost use Rattle.mon_store.specs.Whole.{disk_a, disk_b};
ghost use Rattle.mon_tx.specs.Map.{Store as Map, apply};
ghost use Rattle.mon_tx.specs.Text.{text, most};
ghost use Rattle.mon_types.specs.declared.member.Member.{Member};
ghost use Rattle.quorum_model.specs.Files.{Files, after_opening, no_files};
ghost use Rattle.quorum_model.specs.Growth.{last_of};
ghost use Rattle.quorum_model.specs.Meets.{state_at};
ghost use Rattle.svc_core.specs.Cache.{Follows};
ghost use Rattle.mon_world.specs.Crashes.{Crashes, CrashesDown, MayBe};
ghost use Rattle.mon_world.specs.Monitor.{Holds, InUse, IsHeld, IsRunning, IsUp, Keeps, Reacts, RepresentsSome, RepresentsRunning, Represents, RepresentsAfter, Takes};
ghost use Rattle.mon_world.specs.Times.{Passes, PassesAt, a_of, b_of};
ghost use Rattle.mon_world.specs.Step.{state_if_up, state_of};

use crate::crash::{Remains, crash};
use crate::stop::{WorldStop, stop_of};
use mon_bytes::OutOfMemory;
use mon_core::{Core, Input, Reaction};
use mon_disk::{MemoryDisk, NodeDisks};
use mon_kv::Kv;
use mon_msg::Me;
use mon_site::{InjectedFault, apply, close, empty_disks, start};
use mon_store::Store;
use mon_stored::Stored;
use mon_tx::Transaction;
use mon_types::{Moment, Version};
use std::alloc::Global;
use std::mem;
use trace_text::StateLine;

/// A monitor that is up: its store, open on its disks, and its core.
#[derive(Drop)]
pub(crate) struct Running {
    store: Store<MemoryDisk>,
    core: Core,
}

/// What a monitor keeps: its disks if it is down, and otherwise its open store and its core.
#[derive(Drop)]
pub(crate) enum Kept {
    Down(NodeDisks<MemoryDisk>),
    Up(Running),
}

/// A monitor with its two disks in memory.
#[derive(Drop)]
pub(crate) struct Monitor {
    alloc: Global,
    me: Me,
    /// The last committed version of its map.
    last: Version,
    kept: Kept,
}

/// What is taken of a monitor: its disks, after its store was closed, and its core.
#[derive(Drop)]
struct Taken {
    disks: NodeDisks<MemoryDisk>,
    core: Core,
}

/// Takes the disks and the core, and leaves two empty disks in their place. A monitor that is down has no core, so a
/// new one is booted.
fn take(alloc: Global, me: &Me, kept: &mut Kept) -> Taken
    ensures takes { (m : Map) (s : Option State) (f : Files) → Holds me.now m s f kept.old → Takes me.now m s f result }
    ensures a { result.disks.a ≡ a_of kept.old }
    ensures b { result.disks.b ≡ b_of kept.old }
{
    match mem::replace(kept, Kept::Down(empty_disks(alloc))) {
        Kept::Down(disks) => Taken {
            disks,
            core: Core::boot(alloc, me.member, me.rule),
        },
        Kept::Up(Running { store, core }) => Taken {
            disks: close(store),
            core,
        },
    }
}

/// The core that takes an input. A monitor that starts has a new one.
fn core_at(alloc: Global, me: &Me, core: Core, input: &Input) -> Core
    requires { core.me ≡ me.now }
    ensures me { result.me ≡ me.now }
    ensures state { state_at me.now.member.rank (Some core.state) input.now ≡ Some result.state }
    ensures follows { (w : Readings) → Follows core.cache w → Follows result.cache w }
{
    match input {
        Input::Start => {
            drop(core);
            Core::boot(alloc, me.member, me.rule)
        }
        Input::Deliver(_) | Input::Timer(_) | Input::Client(..) => core,
    }
}

/// Takes the monitor's disks and core, and lets a disk fail while the core takes an input. Two empty disks are left in
/// their place.
fn crash_within(
    alloc: Global,
    me: &Me,
    kept: &mut Kept,
    injected: InjectedFault,
    input: &Input,
    now: Moment,
) -> Result<Remains, WorldStop>
    requires held { IsHeld me.now kept.old }
    requires comes { IsValidInput input.now }
    requires may { MayBe injected }
    ensures { (m : Map) (s : Option State) (t : State) (f : Files) → Holds me.now m s f kept.old
        → state_at me.now.member.rank s input.now ≡ Some t
        → Crashes injected me.now.member m f input.now (reaction me.now now m t input.now) result }
{
    let Taken { disks, core } = take(alloc, me, kept);
    let mut core = core_at(alloc, me, core, input);
    let remains = crash(alloc, me.member, disks, &mut core, injected, input, now);
    drop(core);
    remains
}

/// Replaces what a monitor keeps, and drops what it kept before.
fn put(kept: &mut Kept, next: Kept)
    ensures { kept.new ≡ next }
{
    drop(mem::replace(kept, next));
}

/// The last committed version.
fn last_of(kv: &Kv) -> Version
    ensures { result ≡ last_of kv.now }
{
    Version::known(kv.last_committed())
}

/// Keeps a transaction: makes its changes, and then the checkpoint, if one is due.
fn keep(store: &mut Store<MemoryDisk>, tx: &Transaction) -> Result<(), WorldStop>
    requires runs { InUse store.old }
    requires short { length (text tx.now) ≤ most }
    ensures keeps { (member : Member) (m : Map) (f : Files) → Runs member m f store.old →
        Keeps member m f tx.now store.new result }
    ensures passes { (member : Member) (m : Map) (f : Files) → Runs member m f store.old →
        Passes (OpensEither member m (apply tx.now m)) (disk_a store.old) (disk_b store.old) (disk_a store.new)
        (disk_b store.new) }
{
    match apply(store, tx) {
        Ok(()) => Ok(()),
        Err(stop) => Err(stop_of(stop)),
    }
}

impl Running {
    /// Lets the core react to an input, keeps the transaction, and returns the reaction.
    fn react(&mut self, alloc: Global, input: &Input, now: Moment) -> Result<Reaction, WorldStop>
        requires up { IsRunning self.old }
        requires comes { IsValidInput input.now }
        ensures reacts { (me : Me) (m : Map) (s : State) (f : Files) → IsUp me m s f self.old →
            Reacts me now m s f input.now self.new result }
        ensures passes { (me : Me) (m : Map) (s : State) (f : Files) → IsUp me m s f self.old → IfOk result
            (λ r. Passes (OpensEither me.member m (apply r.tx m)) (disk_a self.old.store) (disk_b self.old.store)
            (disk_a self.new.store) (disk_b self.new.store)) }
    {
        let reaction = self.core.react(alloc, self.store.kv(), input, now)?;
        keep(&mut self.store, &reaction.tx)?;
        Ok(reaction)
    }

    /// The monitor's phase, epoch and last version.
    fn state(&self, alloc: Global) -> StateLine
        requires { IsRunning self.now }
        ensures { (me : Me) (m : Map) (s : State) (f : Files) → IsUp me m s f self.now → result ≡ state_of m s }
    {
        let stored = Stored::of(alloc, self.store.kv());
        StateLine {
            phase: self.core.phase(),
            epoch: stored.epoch(),
            last: stored.last(),
        }
    }
}

impl Monitor {
    /// A monitor that is down, with empty disks. It takes no memory.
    pub(crate) fn new(alloc: Global, me: Me) -> Monitor
        ensures { Represents me empty None no_files result }
    {
        Monitor {
            alloc,
            me,
            last: Version::known(0),
            kept: Kept::Down(empty_disks(alloc)),
        }
    }

    /// The state of the monitor, if it is up.
    pub(crate) fn state(&self) -> Option<StateLine>
        requires { RepresentsSome self.now }
        ensures { (me : Me) (m : Map) (s : Option State) (f : Files) → Represents me m s f self.now →
            result ≡ state_if_up m s }
    {
        match &self.kept {
            Kept::Down(_) => None,
            Kept::Up(running) => Some(running.state(self.alloc)),
        }
    }

    /// The last committed version of its map.
    pub(crate) fn last(&self) -> Version
        ensures { (me : Me) (m : Map) (s : Option State) (f : Files) → Represents me m s f self.now
            → result ≡ last_of m }
    {
        self.last
    }

    /// Whether the map of a monitor that is up is marked: a full synchronization is under way.
    pub(crate) fn is_marked(&self) -> bool
        requires { RepresentsRunning self.now }
        ensures { (me : Me) (m : Map) (s : State) (f : Files) → Represents me m (Some s) f self.now
            → result ≡ is_marked m }
    {
        match &self.kept {
            Kept::Down(_) => unreachable!(),
            Kept::Up(running) => running.store.kv().in_sync(),
        }
    }

    /// Opens the store on the disks, and boots a new core. All that the store doesn't hold is forgotten.
    pub(crate) fn start(&mut self) -> Result<(), OutOfMemory>
        requires { RepresentsSome self.old }
        ensures stands { (me : Me) (m : Map) (s : Option State) (f : Files) → Represents me m s f self.old
            → OnOk result (Represents me m (Some (booting me.member.rank)) (after_opening f) self.new) }
        ensures passes { (me : Me) (m : Map) (s : Option State) (f : Files) → Represents me m s f self.old
            → OnOk result (PassesAt (OpensMap me.member m) self.old self.new) }
    {
        let Taken {
            disks,
            core: before,
        } = take(self.alloc, &self.me, &mut self.kept);
        drop(before);
        let store = start(self.alloc, disks, self.me.member)?;
        let core = Core::boot(self.alloc, self.me.member, self.me.rule);
        put(&mut self.kept, Kept::Up(Running { store, core }));
        Ok(())
    }

    /// Lets a monitor that is up react to an input, keeps the transaction, and returns the reaction.
    pub(crate) fn react(&mut self, input: &Input, now: Moment) -> Result<Reaction, WorldStop>
        requires up { RepresentsRunning self.old }
        requires comes { IsValidInput input.now }
        ensures stands { (me : Me) (m : Map) (s : State) (f : Files) → Represents me m (Some s) f self.old →
            RepresentsAfter me now m s f input.now self.new result }
        ensures passes { (me : Me) (m : Map) (s : State) (f : Files) → Represents me m (Some s) f self.old → IfOk result
            (λ r. PassesAt (OpensEither me.member m (apply r.tx m)) self.old self.new) }
    {
        match &mut self.kept {
            Kept::Down(_) => unreachable!(),
            Kept::Up(running) => {
                let reaction = running.react(self.alloc, input, now)?;
                self.last = last_of(running.store.kv());
                Ok(reaction)
            }
        }
    }

    /// Lets a disk fail while the monitor takes this input, after which it is down. Returns whether its map is marked
    /// if the transaction is kept, and `None` if it is lost.
    pub(crate) fn crash(
        &mut self,
        injected: InjectedFault,
        input: &Input,
        now: Moment,
    ) -> Result<Option<bool>, WorldStop>
        requires stands { RepresentsSome self.old }
        requires comes { IsValidInput input.now }
        requires may { MayBe injected }
        ensures { (me : Me) (m : Map) (s : Option State) (t : State) (f : Files) → Represents me m s f self.old
            → state_at me.member.rank s input.now ≡ Some t
            → CrashesDown injected me m f input.now (reaction me now m t input.now) self.new result }
    {
        let Remains { disks, kept } = crash_within(
            self.alloc,
            &self.me,
            &mut self.kept,
            injected,
            input,
            now,
        )?;
        put(&mut self.kept, Kept::Down(disks));
        match kept {
            Some(written) => {
                self.last = written.last;
                Ok(Some(written.marked))
            }
            None => Ok(None),
        }
    }
}
