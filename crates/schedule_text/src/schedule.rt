ghost use Rattle.std.specs.Prelude.{◌≡◌, ◌↔◌, IsTrue};
ghost use Rattle.std.specs.List.{list_all};
ghost use Rattle.mon_types.specs.Ranks.{has};
ghost use Rattle.schedule_text.specs.declared.event.Plain.TheVariants.{Client};
ghost use Rattle.schedule_text.specs.Fields.{within};
ghost use Rattle.schedule_text.specs.Ranks.{below};
ghost use Rattle.schedule_text.specs.Encoding.{request_fits, plain_fits, injected_fits, event_fits, RuleFits};

use crate::event::{Event, Plain};
use crate::fields::all_printable;
use crate::length::text_len;
use crate::ranks::{below, has_ranks};
use election_rules::Rule;
use mon_bytes::Items;
use mon_types::{GREATEST, Moment, Rank, RankSet};
use mon_wire::{Request, Session};

/// The most bytes of a schedule's text.
pub const MOST_SCHEDULE: usize = 16777216;

/// The most events of a schedule with a text.
pub const MOST_EVENTS: u32 = 200000;

/// A quorum's monitors, how they rank one another, and the events that happen to them.
#[derive(Drop)]
pub struct Schedule {
    /// How many monitors there are.
    pub monitors: u8,
    pub rule: Rule,
    pub events: Items<Event>,
}

impl Schedule {
    ghost use Rattle.std.specs.Prelude.{◌↔◌, IsTrue};
    ghost use Rattle.schedule_text.specs.Encoding.{HasText};

    /// Whether the schedule has a text: there are 1 to 15 monitors, ranks are below their number, numbers within their bounds,
    /// values printable, and there are not too many events and bytes. It takes no memory.
    pub fn has_text(&self) -> bool
        ensures { IsTrue result ↔ HasText self.now }
    {
        let events = self.events.as_slice();
        is_monitors(self.monitors)
            && rule_fits(self.monitors, self.rule)
            && all_fit(self.monitors, events)
            && events.len() <= MOST_EVENTS as usize
            && text_len(self) <= MOST_SCHEDULE as u64
    }
}

fn is_monitors(monitors: u8) -> bool
    ensures { result ≡ within 1 15 monitors }
{
    monitors >= 1 && monitors <= 15
}

fn is_below(monitors: u8, set: RankSet) -> bool
    ensures { IsTrue result ↔ (set ≡ below monitors set) }
{
    set == below(monitors, set)
}

fn rule_fits(monitors: u8, rule: Rule) -> bool
    ensures { IsTrue result ↔ RuleFits monitors rule }
{
    match rule {
        Rule::Classic => true,
        Rule::Disallow(set) => is_below(monitors, set) && has_ranks(set),
        Rule::Connectivity(set) => is_below(monitors, set),
    }
}

fn request_fits(request: &Request) -> bool
    ensures { result ≡ request_fits request.now }
{
    match request {
        Request::Set { key, value } => {
            // For the prover: a key is a name.
            let _name = key.as_slice();
            all_printable(value.as_slice())
        }
        Request::Remove { key } => {
            // For the prover: a key is a name.
            let _name = key.as_slice();
            true
        }
        Request::Log { text } => all_printable(text.as_slice()),
        Request::Show { .. } => true,
        Request::Since { version, .. } => {
            // For the prover: a version is at most 2^62.
            let _fits = version.get();
            true
        }
    }
}

#[tactic(auto, using(crate::proofs::Fits::client_fits))]
fn client_fits(monitors: u8, rank: Rank, at: Moment, session: Session, request: &Request) -> bool
    ensures { result ≡ plain_fits monitors (Client rank at session request.now) }
{
    // For the prover: a time is at most 2^62.
    let _fits = at.get();
    if rank.get() >= monitors || session.id > GREATEST {
        return false;
    }
    request_fits(request)
}

fn plain_fits(monitors: u8, plain: &Plain) -> bool
    ensures { result ≡ plain_fits monitors plain.now }
{
    match plain {
        Plain::Start { rank, at } => {
            // For the prover: a time is at most 2^62.
            let _fits = at.get();
            rank.get() < monitors
        }
        Plain::Deliver { message, at } => {
            // For the prover: a time is at most 2^62.
            let _fits = at.get();
            *message >= 1
        }
        Plain::Timer { rank, at, .. } => {
            // For the prover: a time is at most 2^62.
            let _fits = at.get();
            rank.get() < monitors
        }
        Plain::Client {
            rank,
            at,
            session,
            request,
        } => client_fits(monitors, *rank, *at, *session, request),
    }
}

fn injected_fits(monitors: u8, call: u16, image: u8, event: &Plain) -> bool
    ensures { result ≡ injected_fits monitors call image event.now }
{
    if call < 1 || call > 1000 || image > 3 {
        return false;
    }
    plain_fits(monitors, event)
}

fn event_fits(monitors: u8, event: &Event) -> bool
    ensures { result ≡ event_fits monitors event.now }
{
    match event {
        Event::Plain(plain) => plain_fits(monitors, plain),
        Event::Crash {
            call,
            image,
            event,
            ..
        } => injected_fits(monitors, *call, *image, event),
        Event::Fail {
            call,
            image,
            event,
            ..
        } => injected_fits(monitors, *call, *image, event),
    }
}

fn all_fit(monitors: u8, events: &[Event]) -> bool
    ensures { result ≡ list_all (event_fits monitors) events.now }
{
    events.iter().all(|event| event_fits(monitors, event))
}
