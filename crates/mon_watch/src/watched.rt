//! A link that watches its monitor.

ghost use Rattle.std.specs.Prelude.{◌≡◌, ◌⊎◌, Some, Err, IfErr, IfOk, IsSome};
ghost use Rattle.mon_link.specs.Histories.Happened.{Received, WasSent};
ghost use Rattle.mon_link.specs.Layers.{Above, Grows};
ghost use Rattle.mon_link.specs.Links.{CallsSend, unseen};
ghost use Rattle.mon_types.specs.declared.names.Stop.TheVariants.{OutOfMemory as no_memory};
ghost use Rattle.mon_watch.specs.Answering.{AsksOnce, SendsAnswer, SendsTo, admitted, after_send, answer, asked_by, asker, noted, passed, untils_after};
ghost use Rattle.mon_watch.specs.Histories.{AnswerIsSent, NothingNoted, SentTo, WatchedDoes, watching};
ghost use Rattle.mon_watch.specs.Requests.{request_of};
ghost use Rattle.mon_watch.specs.Traffic.{no_notes, notes_got, notes_sent};

use crate::lines::{LineReceiver, Said};
use crate::notes::Notes;
use crate::report::{Report, report_text};
use crate::request::{Asker, answer_of, is_watch, read_status_request};
use crate::times::DiskTimes;
use answer_times::AnswerTimes;
use mon_bytes::{Bytes, OutOfMemory};
use mon_link::{Clock, Got, Keeps, Link, Peer};
use mon_types::{Member, Moment, Stop};
use std::alloc::Global;
use std::cell::Cell;
use std::rc::Rc;

/// The monitor that is watched, the counts of its two disks, until when clients wait for an answer, and the receiver of
/// lines about it.
#[derive(Drop)]
pub struct Watch<S: LineReceiver + Drop> {
    pub member: Member,
    pub a: Rc<Cell<DiskTimes>>,
    pub b: Rc<Cell<DiskTimes>>,
    pub answered: AnswerTimes,
    pub lines: S,
    pub alloc: Global,
}

/// A link that passes on what its monitor sends and gets, except datagrams of the watch. It notes the headers of these
/// messages, writes lines about what they show, and answers clients that ask for it, each at most once in a second.
#[derive(Drop)]
pub struct Watched<L: Link + Keeps + Drop, C: Clock + Drop, S: LineReceiver + Drop> {
    pub inner: L,
    pub clock: C,
    pub watch: Watch<S>,
    pub notes: Notes,
    said: Said,
}

/// What is handed up: `Idle` in place of a datagram of the watch.
fn passed(got: Got) -> Got
    ensures { result ≡ passed got }
{
    match got {
        Got::Datagram { from, bytes } => {
            if is_watch(bytes.as_slice()) {
                return Got::Idle;
            }
            Got::Datagram { from, bytes }
        }
        Got::Idle => Got::Idle,
        Got::Closed => Got::Closed,
    }
}

fn asked_by(client: u32, bytes: &[u8]) -> Option<Asker>
    ensures { result ≡ asked_by client (request_of bytes.now) }
{
    match read_status_request(bytes) {
        Ok(id) => Some(Asker { client, id }),
        Err(_) => None,
    }
}

/// The client that asked, and the number of its request.
fn asker(got: &Got) -> Option<Asker>
    ensures { result ≡ asker got.now }
{
    match got {
        Got::Datagram { from, bytes } => match from {
            Peer::Client(client) => asked_by(*client, bytes.as_slice()),
            Peer::Monitor(_) => None,
        },
        Got::Idle | Got::Closed => None,
    }
}

/// The result of a send: one that failed is lost and no error; that memory ran out is an error.
fn after_send(sent: Result<(), Stop>) -> Result<(), Stop>
    ensures after { result ≡ after_send sent }
    ensures memory { IfErr result (λ e. e ≡ no_memory) }
{
    match sent {
        Ok(()) | Err(Stop::Failed) => Ok(()),
        Err(Stop::OutOfMemory) => Err(Stop::OutOfMemory),
    }
}

/// The datagram that answers the request of this number.
#[tactic(auto, unfolding(crate::specs::Answering::answer))]
fn answer_to(alloc: Global, id: u64, report: &Report) -> Result<Bytes, OutOfMemory>
    ensures { IfOk result (λ bytes. bytes ≡
        answer report.now.member report.now.notes id report.now.a report.now.b report.now.unkept) }
{
    let text = report_text(alloc, report)?;
    answer_of(alloc, id, text.as_bytes())
}

impl<L: Link + Keeps + Drop, C: Clock + Drop, S: LineReceiver + Drop> Watched<L, C, S> {
    /// A link over `inner` that has noted nothing yet.
    pub fn new(inner: L, clock: C, watch: Watch<S>) -> Watched<L, C, S>
        ensures inner { result.inner ≡ inner }
        ensures clock { result.clock ≡ clock }
        ensures member { result.watch.member ≡ watch.member }
        ensures answered { result.watch.answered ≡ watch.answered }
        ensures notes { result.notes ≡ no_notes }
    {
        Watched {
            inner,
            clock,
            watch,
            notes: Notes::new(),
            said: Said::new(),
        }
    }

    /// Drops all notes, as a new link over the same one.
    pub fn forget(&mut self)
        ensures inner { self.new.inner ≡ self.old.inner }
        ensures clock { self.new.clock ≡ self.old.clock }
        ensures watch { self.new.watch ≡ self.old.watch }
        ensures notes { self.new.notes ≡ no_notes }
    {
        self.notes = Notes::new();
        self.said = Said::new();
    }

    /// The client, if one asked that is answered now.
    fn admits(&mut self, asker: Option<Asker>, now: Moment) -> Option<Asker>
        ensures admitted { result ≡ admitted now self.old.watch.answered asker }
        ensures after { self.new.watch.answered ≡ untils_after now asker self.old.watch.answered }
        ensures kept { (self.new.notes ≡ self.old.notes) × (self.new.watch.member ≡ self.old.watch.member) }
        ensures below { self.new.inner ≡ self.old.inner }
    {
        let asker = asker?;
        if self.watch.answered.admit(asker.client, now) {
            Some(asker)
        } else {
            None
        }
    }

    /// Sends this to a client. What couldn't be sent is lost.
    fn sends_to(&mut self, client: u32, bytes: &[u8]) -> Result<(), Stop>
        ensures sends { SendsTo client bytes.now result (L.state self.old.inner) (L.state self.new.inner) }
        ensures grows { Grows (L.history self.old.inner) (SentTo client bytes.now result) (L.history self.new.inner) }
        ensures kept { (self.new.notes ≡ self.old.notes) × (self.new.watch.member ≡ self.old.watch.member) }
        ensures answered { self.new.watch.answered ≡ self.old.watch.answered }
        ensures memory { IfErr result (λ e. e ≡ no_memory) }
        ensures faults { (L.state self.new.inner).faults ≡ (L.state self.old.inner).faults }
    {
        after_send(self.inner.send(Peer::Client(client), bytes))
    }

    /// Sends a report to the client that asked.
    fn answers(&mut self, asker: Asker) -> Result<(), Stop>
        ensures sends { SendsAnswer (Some asker) self.old.watch.member self.old.notes (L.unkept self.old.inner) result
            (L.state self.old.inner) (L.state self.new.inner)
            ⊎ ((result ≡ Err no_memory) × (L.state self.new.inner ≡ L.state self.old.inner)) }
        ensures grows { Grows (L.history self.old.inner)
            (AnswerIsSent (Some asker) (watching self.old.watch.member self.old.notes) result) (L.history self.new.inner) }
        ensures kept { (self.new.notes ≡ self.old.notes) × (self.new.watch.member ≡ self.old.watch.member) }
        ensures answered { self.new.watch.answered ≡ self.old.watch.answered }
        ensures memory { IfErr result (λ e. e ≡ no_memory) }
        ensures faults { (L.state self.new.inner).faults ≡ (L.state self.old.inner).faults }
    {
        let report = Report {
            member: self.watch.member,
            notes: self.notes,
            a: self.watch.a.get(),
            b: self.watch.b.get(),
            unkept: self.inner.unkept(),
        };
        let alloc = self.watch.alloc;
        let Ok(datagram) = answer_to(alloc, asker.id, &report) else {
            return Err(Stop::OutOfMemory);
        };
        self.sends_to(asker.client, datagram.as_slice())
    }

    /// Sends a report, if a client asked.
    fn answers_if(&mut self, asker: Option<Asker>) -> Result<(), Stop>
        ensures sends { SendsAnswer asker self.old.watch.member self.old.notes (L.unkept self.old.inner) result
            (L.state self.old.inner) (L.state self.new.inner)
            ⊎ (IsSome asker × (result ≡ Err no_memory) × (L.state self.new.inner ≡ L.state self.old.inner)) }
        ensures grows { Grows (L.history self.old.inner)
            (AnswerIsSent asker (watching self.old.watch.member self.old.notes) result) (L.history self.new.inner) }
        ensures kept { (self.new.notes ≡ self.old.notes) × (self.new.watch.member ≡ self.old.watch.member) }
        ensures answered { self.new.watch.answered ≡ self.old.watch.answered }
        ensures memory { IfErr result (λ e. e ≡ no_memory) }
        ensures faults { (L.state self.new.inner).faults ≡ (L.state self.old.inner).faults }
    {
        match asker {
            Some(asker) => self.answers(asker),
            None => Ok(()),
        }
    }
}

impl<L: Link + Keeps + Drop, C: Clock + Drop, S: LineReceiver + Drop> Link for Watched<L, C, S> {
    ghost state = { λ r. unseen (L.state r.inner).faults };

    ghost history = { λ r. Above WatchedDoes NothingNoted (L.history r.inner) (watching r.watch.member r.notes) };

    /// Asks the link below once, with the same wait. Then it writes lines and answers a client that asked and doesn't
    /// wait. If memory runs out for the answer, that is the error, and what was received is dropped.
    fn next(&mut self, wait: u64) -> Result<Got, Stop>
        ensures asks { AsksOnce self.old.watch.member (C.left self.old.clock) wait result
            (noted self.old.notes self.old.watch.answered) (noted self.new.notes self.new.watch.answered)
            (L.state self.old.inner) (L.state self.new.inner) }
        ensures does { Grows (L.history self.old.inner)
            (λ calls. WatchedDoes (watching self.old.watch.member self.old.notes) (Received wait result) calls
            (watching self.new.watch.member self.new.notes)) (L.history self.new.inner) }
        ensures member { self.new.watch.member ≡ self.old.watch.member }
    {
        let got = self.inner.next(wait)?;
        let moment = self.clock.now();
        let asker = asker(&got);
        let asker = self.admits(asker, moment);
        let got = passed(got);
        self.notes.gets(&got, moment.get());
        self.said.passes(&mut self.watch, &self.notes);
        match self.answers_if(asker) {
            Ok(()) => Ok(got),
            Err(stop) => {
                drop(got);
                Err(stop)
            }
        }
    }

    /// Sends a datagram as it is.
    fn send(&mut self, to: Peer, bytes: &[u8]) -> Result<(), Stop>
        ensures sends { CallsSend to bytes.now result (L.state self.old.inner) (L.state self.new.inner) }
        ensures notes { self.new.notes ≡ notes_sent self.old.watch.member.rank to bytes.now self.old.notes }
        ensures does { Grows (L.history self.old.inner)
            (λ calls. WatchedDoes (watching self.old.watch.member self.old.notes) (WasSent to bytes.now result) calls
            (watching self.new.watch.member self.new.notes)) (L.history self.new.inner) }
        ensures member { self.new.watch.member ≡ self.old.watch.member }
        ensures answered { self.new.watch.answered ≡ self.old.watch.answered }
    {
        let shows = self.notes.sends(self.watch.member.rank, &to, bytes);
        let sent = self.inner.send(to, bytes);
        if shows {
            self.said.changes(&mut self.watch, &self.notes);
        }
        sent
    }
}
