//! How a monitor that may be down takes an input.

ghost use Rattle.std.specs.Prelude.{◌≡◌, ◌↔◌, Option, None, Some, IfOk, IsTrue};
ghost use Rattle.mon_bounds.specs.Fitting.{IsValidInput};
ghost use Rattle.mon_msg.specs.Protocol.State.{State, booting};
ghost use Rattle.mon_msg.specs.declared.input.Input.TheVariants.{Start};
ghost use Rattle.mon_msg.specs.declared.view.Me.{Me};
ghost use Rattle.mon_site.specs.Times.{OpensEither};
ghost use Rattle.mon_tx.specs.Map.{Store as Map, apply};
ghost use Rattle.quorum_model.specs.Files.{Files, after_opening};
ghost use Rattle.mon_world.specs.Crashes.{MayBe};
ghost use Rattle.mon_world.specs.Meeting.{Meets, MeetsFault, Handles};
ghost use Rattle.mon_world.specs.Times.{PassesAt, PassesHandled};
ghost use Rattle.mon_world.specs.Monitor.{RepresentsSome, RepresentsRunning, Represents};

use crate::lines::reported;
use crate::monitor::Monitor;
use crate::stop::WorldStop;
use mon_core::{Input, Reaction};
use mon_site::InjectedFault;
use mon_types::{Moment, Version};
use trace_text::StateLine;

/// What a monitor did, and what the trace reports of it.
#[derive(Drop)]
pub(crate) struct Handled {
    pub(crate) reaction: Reaction,
    /// Its new state, if the trace reports it: after a start, or if the state changed.
    pub(crate) reported: Option<StateLine>,
    /// The last committed version of its map then.
    pub(crate) last: Version,
    /// Whether its map is marked then.
    pub(crate) marked: bool,
}

/// What remains of a monitor in whose event a disk failed.
#[derive(Clone, Copy)]
pub(crate) struct Crash {
    /// Whether its map is marked then, if its transaction is kept.
    pub(crate) kept: Option<bool>,
    /// The last committed version of its map then.
    pub(crate) last: Version,
}

/// Whether the input is a start.
fn is_start(input: &Input) -> bool
    ensures { IsTrue result ↔ (input.now ≡ Start) }
{
    matches!(input, Input::Start)
}

/// Lets a monitor that is up take an input. `before` is its state before the event, or `None` if it starts.
fn handle_input(
    monitor: &mut Monitor,
    before: Option<StateLine>,
    input: &Input,
    at: Moment,
) -> Result<Handled, WorldStop>
    requires up { RepresentsRunning monitor.old }
    requires comes { IsValidInput input.now }
    ensures handles { (me : Me) (m : Map) (s : State) (f : Files) → Represents me m (Some s) f monitor.old
        → Handles me at m s f before input.now monitor.new result }
    ensures passes { (me : Me) (m : Map) (s : State) (f : Files) → Represents me m (Some s) f monitor.old → IfOk result
        (λ handled. PassesAt (OpensEither me.member m (apply handled.reaction.tx m)) monitor.old monitor.new) }
{
    let reaction = monitor.react(input, at)?;
    let last = monitor.last();
    let marked = monitor.is_marked();
    let Some(now) = monitor.state() else {
        unreachable!()
    };
    Ok(Handled {
        reaction,
        reported: reported(before, now),
        last,
        marked,
    })
}

/// Opens the store, boots a new core, and lets it react to the start.
fn start(monitor: &mut Monitor, input: &Input, at: Moment) -> Result<Handled, WorldStop>
    requires stands { RepresentsSome monitor.old }
    requires start { input.now ≡ Start }
    ensures handles { (me : Me) (m : Map) (s : Option State) (f : Files) → Represents me m s f monitor.old
        → Handles me at m (booting me.member.rank) (after_opening f) None Start monitor.new result }
    ensures passes { (me : Me) (m : Map) (s : Option State) (f : Files) → Represents me m s f monitor.old → IfOk result
        (λ handled. PassesAt (OpensEither me.member m (apply handled.reaction.tx m)) monitor.old monitor.new) }
{
    monitor.start()?;
    handle_input(monitor, None, input, at)
}

/// Lets a monitor take an input. Returns `None`, and changes nothing, if it is down and the input isn't a start.
pub(crate) fn meet(
    monitor: &mut Monitor,
    input: &Input,
    at: Moment,
) -> Result<Option<Handled>, WorldStop>
    requires stands { RepresentsSome monitor.old }
    requires comes { IsValidInput input.now }
    ensures meets { (me : Me) (m : Map) (s : Option State) (f : Files) → Represents me m s f monitor.old →
        Meets me at m s f input.now monitor.new result }
    ensures passes { (me : Me) (m : Map) (s : Option State) (f : Files) → Represents me m s f monitor.old →
        PassesHandled me.member m result monitor.old monitor.new }
{
    if is_start(input) {
        return Ok(Some(start(monitor, input, at)?));
    }
    match monitor.state() {
        None => Ok(None),
        Some(before) => Ok(Some(handle_input(monitor, Some(before), input, at)?)),
    }
}

/// Lets a disk fail while the monitor takes an input. It returns `None` if the monitor is down and doesn't start.
pub(crate) fn fail_disk(
    monitor: &mut Monitor,
    injected: InjectedFault,
    input: &Input,
    at: Moment,
) -> Result<Option<Crash>, WorldStop>
    requires stands { RepresentsSome monitor.old }
    requires comes { IsValidInput input.now }
    requires may { MayBe injected }
    ensures { (me : Me) (m : Map) (s : Option State) (f : Files) → Represents me m s f monitor.old
        → MeetsFault injected me at m s f input.now monitor.new result }
{
    if !is_start(input) && monitor.state().is_none() {
        return Ok(None);
    }
    let kept = monitor.crash(injected, input, at)?;
    Ok(Some(Crash {
        kept,
        last: monitor.last(),
    }))
}
