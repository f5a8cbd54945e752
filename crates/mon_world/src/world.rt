//! The world of a schedule.

ghost use Rattle.std.specs.Prelude.{◌≡◌, ◌≢◌, ℕ, ◌<◌, ◌≤◌, Bool, List, [], Option, None, Some, IfOk, OnOk, length, map, slice_get};
ghost use Rattle.std.specs.FinMap.{empty};
ghost use Rattle.std.specs.Option.{option_map};
ghost use Rattle.mon_bounds.specs.Fitting.{IsValidInput};
ghost use Rattle.mon_kv.specs.Readers.{is_marked};
ghost use Rattle.mon_msg.specs.Protocol.State.{State};
ghost use Rattle.mon_msg.specs.declared.input.Input.TheVariants as input;
ghost use Rattle.mon_msg.specs.declared.view.Me.{Me};
ghost use Rattle.mon_tx.specs.Map.{Store as Map};
ghost use Rattle.mon_tx.specs.Text.{text, most};
ghost use Rattle.quorum_model.specs.Files.{Files, no_files};
ghost use Rattle.quorum_model.specs.Growth.{last_of};
ghost use Rattle.quorum_model.specs.Meets as meets;
ghost use Rattle.quorum_model.specs.Monitors.{Monitors};
ghost use Rattle.quorum_model.specs.Safe.{Safe};
ghost use Rattle.quorum_model.specs.Scenes.{Scene, first_scene};
ghost use Rattle.quorum_model.specs.World as model;
ghost use Rattle.schedule_text.specs.declared.event.Event.TheVariants as events;
ghost use Rattle.schedule_text.specs.declared.event.Plain.{Plain};
ghost use Rattle.mon_world.specs.Events.{plain_event};
ghost use Rattle.mon_world.specs.Crashes.{MayBe, injected_of};
ghost use Rattle.mon_world.specs.Meeting.{Meets, MeetsFault};
ghost use Rattle.mon_world.specs.Times.{EachPasses, PassesHandled};
ghost use Rattle.mon_world.specs.Monitor.{RepresentsSome, Represents};
ghost use Rattle.mon_world.specs.Represented.{Does, DoesInjected, Fits, FitsPlain, IsWorld, Leads, RepresentsScene, RepresentsRun};
ghost use Rattle.mon_world.specs.Represented.{and_event, arrival_of, envelope_of};
ghost use Rattle.mon_world.specs.Step.{log_after, step};
ghost use Rattle.mon_world.specs.Reporting.{Leaves, Reports, faulty_event};

use crate::lines::still;
use crate::meeting::{Crash, Handled, fail_disk, meet};
use crate::monitor::Monitor;
use crate::sending::{Envelope, Gone, send};
use crate::stop::WorldStop;
use election_rules::Rule;
use mon_bytes::OutOfMemory;
use mon_core::{Input, Reaction};
use mon_msg::Me;
use mon_site::InjectedFault;
use mon_types::{Member, Moment, Rank, Side, Version};
use schedule_text::{Event, Plain};
use std::alloc::Global;
use trace_text::{Outcome, StepLine};

/// An input that arrives at a monitor, and when.
#[derive(Drop)]
struct Arrival {
    rank: Rank,
    at: Moment,
    input: Input,
}

/// The event that injects the disk failure.
#[derive(Clone, Copy)]
enum Fault {
    Crash,
    Fail,
}

/// The outcome of an event with an injected disk failure.
#[derive(Clone, Copy)]
enum FaultOutcome {
    NoMessage,
    Down,
    /// The monitor stopped. Its transaction is kept or lost.
    Stopped { kept: bool },
}

impl FaultOutcome {
    ghost use Rattle.std.specs.Prelude.{◌≡◌};
    ghost use Rattle.mon_world.specs.Reporting.{outcome_of, stopped_as};

    /// The outcome that the trace reports.
    fn outcome(self, fault: Fault) -> Outcome
        ensures { result ≡ outcome_of (stopped_as fault) self }
    {
        match self {
            FaultOutcome::NoMessage => Outcome::NoMessage,
            FaultOutcome::Down => Outcome::Down,
            FaultOutcome::Stopped { kept } => match fault {
                Fault::Crash => Outcome::Crashed { kept },
                Fault::Fail => Outcome::Failed { kept },
            },
        }
    }
}

/// The fault that an event injects: the disk, the number of its failing call from 1, and which of four images it
/// leaves.
fn injected_at(disk: Side, call: u16, image: u8) -> InjectedFault
    ensures { result ≡ record { disk = disk; call = call; image = image } }
{
    InjectedFault {
        disk,
        call: call as u64,
        image,
    }
}

/// The monitors of a map, all messages that they ever sent, and the length of the log.
#[derive(Drop)]
pub struct World {
    alloc: Global,
    monitors: Vec<Monitor>,
    messages: Vec<Envelope>,
    log: u64,
}

/// The arrival of the sent message of this number, counted from 1. It is `None` if no message has the number.
fn delivered(
    alloc: Global,
    messages: &[Envelope],
    number: u64,
    at: Moment,
) -> Result<Option<Arrival>, OutOfMemory>
    ensures { (w : model.World) → map envelope_of messages.now ≡ w.messages
        → IfOk result (λ a. option_map arrival_of a ≡ meets.arrival w (model.Deliver number at)) }
{
    if number == 0 || number > messages.len() as u64 {
        return Ok(None);
    }
    let envelope = &messages[(number - 1) as usize];
    Ok(Some(Arrival {
        rank: envelope.to,
        at,
        input: Input::Deliver(envelope.message.copy(alloc)?),
    }))
}

/// The arrival that an event brings. It is `None` for a message that wasn't sent.
fn arriving(
    alloc: Global,
    messages: &[Envelope],
    event: &Plain,
) -> Result<Option<Arrival>, OutOfMemory>
    ensures { (w : model.World) → map envelope_of messages.now ≡ w.messages
        → IfOk result (λ a. option_map arrival_of a ≡ meets.arrival w (plain_event event.now)) }
{
    match event {
        Plain::Start { rank, at } => Ok(Some(Arrival {
            rank: *rank,
            at: *at,
            input: Input::Start,
        })),
        Plain::Deliver { message, at } => delivered(alloc, messages, *message, *at),
        Plain::Timer { rank, kind, at } => Ok(Some(Arrival {
            rank: *rank,
            at: *at,
            input: Input::Timer(*kind),
        })),
        Plain::Client {
            rank,
            at,
            session,
            request,
        } => Ok(Some(Arrival {
            rank: *rank,
            at: *at,
            input: Input::Client(*session, request.copy(alloc)?),
        })),
    }
}

/// The log's length after a map with this last version is kept. A map that is marked, since a full synchronization is
/// under way, leaves the length unchanged.
fn grown(log: u64, last: Version, marked: bool) -> u64
    ensures { (m : Map) → last ≡ last_of m → marked ≡ is_marked m → result ≡ log_after log m }
{
    if marked { log } else { log.max(last.get()) }
}

/// Lets the monitor of a rank take an input. Returns `None` if it is down and the input isn't a start.
fn meet_at(
    monitors: &mut Vec<Monitor>,
    rank: Rank,
    input: &Input,
    at: Moment,
) -> Result<Option<Handled>, WorldStop>
    requires within { rank < length monitors.old.items }
    requires stands { (monitor : Monitor) → slice_get monitors.old.items rank ≡ Some monitor → RepresentsSome monitor }
    requires comes { IsValidInput input.now }
    ensures count { length monitors.new.items ≡ length monitors.old.items }
    ensures others { (i : ℕ) → i ≢ rank → slice_get monitors.new.items i ≡ slice_get monitors.old.items i }
    ensures meets { (old new : Monitor) → slice_get monitors.old.items rank ≡ Some old →
        slice_get monitors.new.items rank ≡ Some new
        → (me : Me) (m : Map) (s : Option State) (f : Files) → Represents me m s f old →
        Meets me at m s f input.now new result }
    ensures passes { (old new : Monitor) → slice_get monitors.old.items rank ≡ Some old →
        slice_get monitors.new.items rank ≡ Some new
        → (me : Me) (m : Map) (s : Option State) (f : Files) → Represents me m s f old →
        PassesHandled me.member m result old new }
{
    meet(&mut monitors[rank.get() as usize], input, at)
}

/// Lets a disk of the monitor of a rank fail while the monitor takes an input.
fn fail_disk_at(
    monitors: &mut Vec<Monitor>,
    rank: Rank,
    injected: InjectedFault,
    input: &Input,
    at: Moment,
) -> Result<Option<Crash>, WorldStop>
    requires within { rank < length monitors.old.items }
    requires stands { (monitor : Monitor) → slice_get monitors.old.items rank ≡ Some monitor → RepresentsSome monitor }
    requires comes { IsValidInput input.now }
    requires may { MayBe injected }
    ensures count { length monitors.new.items ≡ length monitors.old.items }
    ensures others { (i : ℕ) → i ≢ rank → slice_get monitors.new.items i ≡ slice_get monitors.old.items i }
    ensures meets { (old new : Monitor) → slice_get monitors.old.items rank ≡ Some old →
        slice_get monitors.new.items rank ≡ Some new
        → (me : Me) (m : Map) (s : Option State) (f : Files) → Represents me m s f old →
        MeetsFault injected me at m s f input.now new result }
{
    fail_disk(&mut monitors[rank.get() as usize], injected, input, at)
}

/// A monitor of a map, which is down, with empty disks.
fn down(alloc: Global, rank: u8, monitors: u8, rule: &Rule) -> Monitor
    requires in_map { rank < monitors }
    requires most { monitors ≤ 15 }
    ensures { (me : Me) → me.member.rank ≡ rank → me.member.monitors ≡ monitors → me.rule ≡ rule.now →
        Represents me empty None no_files result }
{
    let member = Member {
        rank: Rank::known(rank),
        monitors,
    };
    Monitor::new(
        alloc,
        Me {
            member,
            rule: *rule,
        },
    )
}

impl World {
    /// A world of `monitors` monitors, at most 15, all down, with empty disks and an empty log: nothing has happened.
    pub fn new(alloc: Global, monitors: u8, rule: Rule) -> Result<World, OutOfMemory>
        requires { monitors ≤ 15 }
        ensures { (ms : Monitors) → ms.count ≡ monitors → ms.rule ≡ rule →
            IfOk result (λ world. RepresentsRun ms [] world first_scene) }
    {
        let mut list = Vec::new(alloc);
        for rank in 0..monitors {
            list.push(down(alloc, rank, monitors, &rule))?;
        }
        Ok(World {
            alloc,
            monitors: list,
            messages: Vec::new(alloc),
            log: 0,
        })
    }

    /// How many versions the log has.
    pub fn log_len(&self) -> u64
        ensures { result ≡ self.now.log }
    {
        self.log
    }

    /// The last committed version of a monitor's map, and 0 if there is none. The rank has to be a monitor's.
    pub fn last_of(&self, rank: Rank) -> Version
        requires { rank < length self.now.monitors.items }
        ensures { (ms : Monitors) (c : Scene) → RepresentsScene ms self.now c → result ≡ last_of (c.world.store rank) }
    {
        self.monitors[rank.get() as usize].last()
    }

    /// Records the log's new length, sends what the monitor of a rank sent, and returns the trace lines.
    fn report(&mut self, rank: Rank, handled: Handled) -> Result<StepLine, OutOfMemory>
        requires { length (text handled.reaction.tx) ≤ most }
        ensures { IfOk result (λ line. Reports rank handled self.old self.new line) }
    {
        let Handled {
            reaction,
            reported,
            last,
            marked,
        } = handled;
        let Reaction { tx, out } = reaction;
        self.log = grown(self.log, last, marked);
        let Gone { sent, replies } = send(self.alloc, &mut self.messages, rank, out)?;
        Ok(StepLine {
            outcome: Outcome::Ran,
            ops: tx.ops().len() as u32,
            state: reported,
            sent,
            replies,
        })
    }

    /// Delivers an arrival to its monitor and returns the trace lines.
    fn deliver(&mut self, arrival: &Arrival) -> Result<StepLine, WorldStop>
        requires world { IsWorld self.old }
        requires within { arrival.now.rank < length self.old.monitors.items }
        requires comes { IsValidInput arrival.now.input }
        ensures does { (ms : Monitors) (c : Scene) (p : Plain) → RepresentsScene ms self.old c
            → meets.arrival c.world (plain_event p) ≡ Some (arrival_of arrival.now)
            → Does ms result self.new (step ms c (events.Plain p)) }
        ensures any_time { (ms : Monitors) (c next : Scene) → RepresentsScene ms self.old c
            → RepresentsScene ms self.new next
            → OnOk result (EachPasses ms c next self.old self.new) }
    {
        let Some(handled) = meet_at(&mut self.monitors, arrival.rank, &arrival.input, arrival.at)?
        else {
            return Ok(still(self.alloc, Outcome::Down));
        };
        Ok(self.report(arrival.rank, handled)?)
    }

    /// Makes a plain event happen, and returns its trace lines.
    fn plain(&mut self, event: &Plain) -> Result<StepLine, WorldStop>
        requires world { IsWorld self.old }
        requires fits { FitsPlain (length self.old.monitors.items) event.now }
        ensures does { (ms : Monitors) (c : Scene) → RepresentsScene ms self.old c →
            Does ms result self.new (step ms c (events.Plain event.now)) }
        ensures any_time { (ms : Monitors) (c next : Scene) → RepresentsScene ms self.old c
            → RepresentsScene ms self.new next
            → OnOk result (EachPasses ms c next self.old self.new) }
    {
        match arriving(self.alloc, self.messages.as_slice(), event)? {
            None => Ok(still(self.alloc, Outcome::NoMessage)),
            Some(arrival) => {
                let line = self.deliver(&arrival);
                drop(arrival);
                line
            }
        }
    }

    /// Records the log's new length if the transaction is kept, and returns whether it is.
    fn note_crash(&mut self, crash: Crash) -> FaultOutcome
        ensures { Leaves crash self.old self.new result }
    {
        let Some(marked) = crash.kept else {
            return FaultOutcome::Stopped { kept: false };
        };
        self.log = grown(self.log, crash.last, marked);
        FaultOutcome::Stopped { kept: true }
    }

    /// Delivers an arrival to its monitor, one of whose disks fails, and returns the outcome.
    fn deliver_with_fault(
        &mut self,
        arrival: &Arrival,
        injected: InjectedFault,
    ) -> Result<FaultOutcome, WorldStop>
        requires world { IsWorld self.old }
        requires within { arrival.now.rank < length self.old.monitors.items }
        requires comes { IsValidInput arrival.now.input }
        requires may { MayBe injected }
        ensures { (ms : Monitors) (c : Scene) (p : model.Plain) → RepresentsScene ms self.old c →
            meets.arrival c.world p ≡ Some (arrival_of arrival.now)
            → DoesInjected ms result self.new c (injected_of injected) p }
    {
        let Some(crash) = fail_disk_at(
            &mut self.monitors,
            arrival.rank,
            injected,
            &arrival.input,
            arrival.at,
        )?
        else {
            return Ok(FaultOutcome::Down);
        };
        Ok(self.note_crash(crash))
    }

    /// Lets an event happen in which a disk of its monitor fails, and returns the outcome.
    fn inject(&mut self, event: &Plain, injected: InjectedFault) -> Result<FaultOutcome, WorldStop>
        requires world { IsWorld self.old }
        requires fits { FitsPlain (length self.old.monitors.items) event.now }
        requires may { MayBe injected }
        ensures { (ms : Monitors) (c : Scene) → RepresentsScene ms self.old c →
            DoesInjected ms result self.new c (injected_of injected) (plain_event event.now) }
    {
        match arriving(self.alloc, self.messages.as_slice(), event)? {
            None => Ok(FaultOutcome::NoMessage),
            Some(arrival) => {
                let fault_outcome = self.deliver_with_fault(&arrival, injected);
                drop(arrival);
                fault_outcome
            }
        }
    }

    /// Lets an event happen in which a disk of its monitor fails, and returns the trace lines.
    fn run_with_fault(
        &mut self,
        event: &Plain,
        injected: InjectedFault,
        fault: Fault,
    ) -> Result<StepLine, WorldStop>
        requires world { IsWorld self.old }
        requires fits { FitsPlain (length self.old.monitors.items) event.now }
        requires may { MayBe injected }
        ensures { (ms : Monitors) (c : Scene) → RepresentsScene ms self.old c →
            Does ms result self.new (step ms c (faulty_event fault injected event.now)) }
    {
        let fault_outcome = self.inject(event, injected)?;
        Ok(still(self.alloc, fault_outcome.outcome(fault)))
    }

    /// Makes an event of a schedule happen, and returns its lines of the trace. It is apart from `step`, so that `step`
    /// proves once for all kinds of events that the run continues.
    fn happen(&mut self, event: &Event) -> Result<StepLine, WorldStop>
        requires world { IsWorld self.old }
        requires fits { Fits (length self.old.monitors.items) event.now }
        ensures does { (ms : Monitors) (c : Scene) → RepresentsScene ms self.old c →
            Does ms result self.new (step ms c event.now) }
        ensures any_time { (ms : Monitors) (c next : Scene) (p : Plain) → event.now ≡ events.Plain p
            → RepresentsScene ms self.old c → RepresentsScene ms self.new next
            → OnOk result (EachPasses ms c next self.old self.new) }
    {
        match event {
            Event::Plain(event) => self.plain(event),
            Event::Crash {
                disk,
                call,
                image,
                event,
            } => self.run_with_fault(event, injected_at(*disk, *call, *image), Fault::Crash),
            Event::Fail {
                disk,
                call,
                image,
                event,
            } => self.run_with_fault(event, injected_at(*disk, *call, *image), Fault::Fail),
        }
    }

    /// Makes one event happen, and returns its lines of the trace. It may be any event at a monitor of the quorum map,
    /// whether or not a schedule has a line for it: a value or text may hold any characters, and a message may have any
    /// number. A number that no sent message has, as 0, is `NoMessage`. If the world represented a list of events, it
    /// then represents the list with this one added, and the run of that is safe. `Spent` and `Full` are returned if
    /// and only if the model's run stops before the event, with the same number or size, and `OutOfMemory` if an
    /// allocation was refused. After an `Err` the world isn't used again.
    pub fn step(&mut self, event: &Event) -> Result<StepLine, WorldStop>
        requires world { IsWorld self.old }
        requires fits { Fits (length self.old.monitors.items) event.now }
        ensures does { (ms : Monitors) (c : Scene) → RepresentsScene ms self.old c →
            Does ms result self.new (step ms c event.now) }
        ensures goes_on { (ms : Monitors) (c : Scene) (events : List model.Event) → RepresentsRun ms events self.old c
            → Leads (RepresentsRun ms (and_event ms events c event.now) self.new) result (step ms c event.now) }
        ensures safe { (ms : Monitors) (c : Scene) (events : List model.Event) → RepresentsRun ms events self.old c
            → Safe ms (and_event ms events c event.now) }

        // A crash at any point of an event in which no disk fails, also inside each call on a disk, leaves each monitor
        // two images on which it opens the map from before the event or from after it.
        ensures any_time { (ms : Monitors) (c next : Scene) (p : Plain) → event.now ≡ events.Plain p
            → RepresentsScene ms self.old c → RepresentsScene ms self.new next
            → OnOk result (EachPasses ms c next self.old self.new) }
    {
        self.happen(event)
    }
}
