//! What an iteration hears: a timer that is due, or what the link returns.

ghost use Rattle.std.specs.Prelude.{◌≡◌, ℕ, [], ◌∷◌, Result, IfOk, IfSome, OnOk};
ghost use Rattle.mon_bounds.specs.Fitting.{IsValidInput};
ghost use Rattle.mon_frag.specs.Keeping.{taken};
ghost use Rattle.mon_frag.specs.Whole.{answer_in, kept_in};
ghost use Rattle.mon_node.specs.Hearing.{due_by, wait_until, input_in, Given, AreAnswers, IsGiven, Hears, answer_arrived, link_asked, heard, faults_by};
ghost use Rattle.mon_node.specs.Nodes.{outside_of};
ghost use Rattle.mon_node.specs.Talking.{asked};
ghost use Rattle.mon_link.specs.Histories.{GoOn};
ghost use Rattle.mon_link.specs.Histories.Happened.{Received};
ghost use Rattle.mon_link.specs.declared.link.Got.{Got as gots};
ghost use Rattle.mon_types.specs.declared.names.Stop.{Stop as stops};

use crate::end::NodeEnd;
use crate::reading::read;
use mon_bytes::OutOfMemory;
use mon_core::Input;
use mon_frag::{Assembly, FragRefused, is_whole};
use mon_link::{Clock, Got, Link, Peer};
use mon_msg::Timer;
use mon_types::{Moment, Stop};
use std::alloc::Global;

/// The longest wait for what comes over the link, in milliseconds.
pub(crate) const LONGEST_WAIT: u64 = 1000;

/// An input, and the time at which it comes.
#[derive(Drop)]
pub struct TimedInput {
    pub input: Input,
    pub at: Moment,
}

/// The timer that comes next, if it is due by `now`.
fn due_by(now: Moment, next: &Option<(Timer, Moment)>) -> Option<Timer>
    ensures { result ≡ due_by now next.now }
{
    match next {
        Some((timer, end)) => {
            if end.get() <= now.get() {
                Some(*timer)
            } else {
                None
            }
        }
        None => None,
    }
}

/// How long to wait for the link, in milliseconds: up to the timer that comes next, and at most a second.
fn wait_until(now: Moment, next: &Option<(Timer, Moment)>) -> u64
    ensures { result ≡ wait_until now next.now }
{
    match next {
        Some((_, end)) => LONGEST_WAIT.min(end.get().saturating_sub(now.get())),
        None => LONGEST_WAIT,
    }
}

/// The input that a datagram brings, if it completes a message that encodes one.
fn brought(
    alloc: Global,
    monitors: u8,
    assembly: &mut Assembly,
    from: &Peer,
    datagram: &[u8],
) -> Result<Option<Input>, OutOfMemory>
    ensures input { IfOk result
        (λ came. came ≡ input_in monitors from.now (answer_in (taken assembly.old from.now datagram.now))) }
    ensures kept { OnOk result (assembly.new ≡ kept_in assembly.old (taken assembly.old from.now datagram.now)) }
    ensures comes { IfOk result (λ came. IfSome came IsValidInput) }
{
    if is_whole(datagram) {
        return read(alloc, monitors, from, datagram);
    }
    match assembly.take(*from, datagram) {
        Ok(Some(bytes)) => read(alloc, monitors, from, bytes.as_slice()),
        Err(FragRefused::OutOfMemory) => Err(OutOfMemory),
        Ok(None) | Err(_) => Ok(None),
    }
}

/// Asks the link for what comes next.
fn ask<L: Link, C: Clock>(
    alloc: Global,
    monitors: u8,
    assembly: &mut Assembly,
    link: &mut L,
    clock: &mut C,
    wait: u64,
) -> Result<Option<TimedInput>, NodeEnd>
    ensures heard { let old = outside_of assembly.old (C.left clock.old) (L.state link.old).observed in
        (answer : Result gots stops) × (later : ℕ) × AreAnswers old answer later
        × Hears (answer_arrived monitors later answer (link_asked wait answer old)) result
        (outside_of assembly.new (C.left clock.new) (L.state link.new).observed)
        × GoOn (L.history link.old) (Received wait answer ∷ []) (L.history link.new) }
    ensures comes { IfOk result (λ came. IfSome came (λ it. IsValidInput it.input)) }
    ensures faults { (L.state link.new).faults ≡ faults_by result (L.state link.old).faults }
{
    match link.next(wait) {
        Ok(Got::Datagram { from, bytes }) => {
            let at = clock.now();
            match brought(alloc, monitors, assembly, &from, bytes.as_slice())? {
                Some(input) => Ok(Some(TimedInput { input, at })),
                None => Ok(None),
            }
        }
        Ok(Got::Idle) => Ok(None),
        Ok(Got::Closed) => Err(NodeEnd::Closed),
        Err(Stop::Failed) => Err(NodeEnd::LinkFault),
        Err(Stop::OutOfMemory) => Err(NodeEnd::OutOfMemory),
    }
}

/// Returns the timer that comes next if it is due, and otherwise asks the link. `None` if nothing came that is an
/// input.
pub(crate) fn hear<L: Link, C: Clock>(
    alloc: Global,
    monitors: u8,
    next: &Option<(Timer, Moment)>,
    assembly: &mut Assembly,
    link: &mut L,
    clock: &mut C,
) -> Result<Option<TimedInput>, NodeEnd>
    ensures heard { let old = outside_of assembly.old (C.left clock.old) (L.state link.old).observed in
        (g : Given) × IsGiven next.now g old
        × Hears (heard monitors next.now g old) result
        (outside_of assembly.new (C.left clock.new) (L.state link.new).observed)
        × GoOn (L.history link.old) (asked next.now g) (L.history link.new) }
    ensures comes { IfOk result (λ came. IfSome came (λ it. IsValidInput it.input)) }
    ensures faults { (L.state link.new).faults ≡ faults_by result (L.state link.old).faults }
{
    let began = clock.now();
    let wait = wait_until(began, next);
    match due_by(began, next) {
        Some(timer) => Ok(Some(TimedInput {
            input: Input::Timer(timer),
            at: began,
        })),
        None => ask(alloc, monitors, assembly, link, clock, wait),
    }
}
