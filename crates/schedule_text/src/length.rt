//! How long texts are, found without allocating.

ghost use Rattle.std.specs.Prelude.{◌≡◌, ◌+◌, ◌-◌, ◌^◌, ◌<◌, ◌≤◌, min, length, decimal};
ghost use Rattle.schedule_text.specs.Ranks.{separated, ranks_text};
ghost use Rattle.schedule_text.specs.Encoding.{request_text, plain_text, injected_text, event_line, rule_text, header, ended_line, schedule_text};

use crate::event::{Event, Plain};
use crate::schedule::Schedule;
use crate::words::{service_word, side_word, timer_word};
use election_rules::Rule;
use mon_types::{RankSet, Side};
use mon_wire::Request;

#[tactic(auto, using(crate::proofs::Lengths::one_digit, crate::proofs::Lengths::more_digits, crate::proofs::Lengths::at_most_20_digits))]
fn decimal_len(n: u64) -> u64
    ensures value { result ≡ length (decimal n) }
    ensures most { result ≤ 20 }
{
    if n < 10 { 1 } else { 1 + decimal_len(n / 10) }
}

fn request_len(request: &Request) -> u64
    ensures value { result ≡ length (request_text request.now) }
    ensures most { result < 2 ^ 63 + 2 ^ 10 }
{
    match request {
        Request::Set { key, value } => {
            5 + key.as_slice().len() as u64 + value.as_slice().len() as u64
        }
        Request::Remove { key } => 7 + key.as_slice().len() as u64,
        Request::Log { text } => 4 + text.as_slice().len() as u64,
        Request::Show { service } => 5 + service_word(*service).len() as u64,
        Request::Since { service, version } => {
            7 + service_word(*service).len() as u64 + decimal_len(version.get())
        }
    }
}

fn plain_len(plain: &Plain) -> u64
    ensures value { result ≡ length (plain_text plain.now) }
    ensures most { result < 2 ^ 63 + 2 ^ 11 }
{
    match plain {
        Plain::Start { rank, at } => {
            7 + decimal_len(u64::from(rank.get())) + decimal_len(at.get())
        }
        Plain::Deliver { message, at } => 9 + decimal_len(*message) + decimal_len(at.get()),
        Plain::Timer { rank, kind, at } => {
            let kind = timer_word(*kind).len() as u64;
            8 + decimal_len(u64::from(rank.get())) + kind + decimal_len(at.get())
        }
        Plain::Client {
            rank,
            at,
            session,
            request,
        } => {
            let place = decimal_len(u64::from(rank.get())) + decimal_len(at.get());
            let session = decimal_len(u64::from(session.client)) + decimal_len(session.id);
            11 + place + session + request_len(request)
        }
    }
}

fn injected_len(disk: Side, call: u16, image: u8, event: &Plain) -> u64
    ensures value { result ≡ length (injected_text disk call image event.now) }
    ensures most { result < 2 ^ 63 + 2 ^ 12 }
{
    let disk = side_word(disk).len() as u64;
    let place = decimal_len(u64::from(call)) + decimal_len(u64::from(image));
    3 + disk + place + plain_len(event)
}

fn event_len(event: &Event) -> u64
    ensures { result ≡ length (event_line event.now) }
{
    match event {
        Event::Plain(plain) => 1 + plain_len(plain),
        Event::Crash {
            disk,
            call,
            image,
            event,
        } => 7 + injected_len(*disk, *call, *image, event),
        Event::Fail {
            disk,
            call,
            image,
            event,
        } => 6 + injected_len(*disk, *call, *image, event),
    }
}

/// The length of the set's ranks, each after its separator.
fn ranks_len(set: RankSet) -> u64
    ensures value { result ≡ length (separated 61 (ranks_text set)) }
    ensures most { result ≤ 400 }
{
    let mut len = 0;
    for rank in set.iter() {
        len += 1 + decimal_len(u64::from(rank.get()));
    }
    len
}

fn rule_len(rule: Rule) -> u64
    ensures value { result ≡ length (rule_text rule) }
    ensures most { result ≤ 500 }
{
    match rule {
        Rule::Classic => 7,
        Rule::Disallow(set) => 8 + ranks_len(set),
        Rule::Connectivity(set) => 12 + ranks_len(set),
    }
}

/// The length of a schedule's text, up to 2^64 - 1.
pub fn text_len(schedule: &Schedule) -> u64
    ensures { result ≡ min (length (schedule_text schedule.now)) (2 ^ 64 - 1) }
{
    let first = 11 + decimal_len(u64::from(schedule.monitors)) + rule_len(schedule.rule);
    let mut len = first;
    for event in schedule.events.as_slice() {
        len = len.saturating_add(event_len(event));
    }
    len
}
