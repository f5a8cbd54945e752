ghost use Rattle.std.specs.Prelude.{◌≡◌, IfOk};
ghost use Rattle.answer_times.specs.Times.{no_answers};
ghost use Rattle.mon_hello.specs.Greets.{admitted, asked_by, asker, untils_after};
ghost use Rattle.mon_hello.specs.Formats.{hello_of};

use crate::hello::{Hello, is_hello};
use crate::lines::{Reason, Say, line_of, unnamed_line};
use crate::own::Own;
use answer_times::AnswerTimes;
use mon_bytes::{Bytes, Decode, MapRefused, OutOfMemory};
use mon_link::{Got, Peer};
use mon_types::{Moment, Rank};
use std::alloc::Global;

/// How many lines are said in an interval at most, and how long it is, in milliseconds.
const MOST_LINES: u32 = 20;

const LINES_INTERVAL: u64 = 10_000;

/// What a monitor said of itself, and which lines were said about it.
#[derive(Drop)]
pub struct Known {
    /// Its newest hello.
    pub hello: Option<Hello>,
    /// When that hello arrived, in milliseconds of the link's clock.
    pub heard: u64,
    /// By reason, whether a line was said since the monitor last agreed.
    said: [bool; 6],
}

/// What other monitors said of themselves, in order of rank, which lines were said about them, and until when clients
/// wait for an answer.
#[derive(Drop)]
pub struct Heard {
    pub known: Vec<Known>,
    pub answered: AnswerTimes,
    /// The bytes with which each framed datagram of one's own quorum begins.
    frame: Bytes,
    /// How many lines were said in the current interval, and when it began.
    lines: u32,
    begun: u64,
    alloc: Global,
}

impl Heard {
    /// The state before any of this many monitors is heard. `frame` is an empty datagram in the frame of one's own
    /// quorum, and so the beginning of each datagram of it.
    pub fn new(alloc: Global, monitors: u8, frame: Bytes) -> Result<Heard, OutOfMemory>
        ensures { IfOk result (λ heard. heard.answered ≡ no_answers) }
    {
        let mut known = Vec::new(alloc);
        for _ in 0..monitors {
            known.push(Known {
                hello: None,
                heard: 0,
                said: [false; 6],
            })?;
        }
        Ok(Heard {
            known,
            answered: AnswerTimes::new(alloc)?,
            frame,
            lines: 0,
            begun: 0,
            alloc,
        })
    }

    /// Counts a line. Returns whether it may be said in this interval.
    fn admit_line(&mut self, now: u64) -> bool
        ensures { self.new.answered ≡ self.old.answered }
    {
        if now >= self.begun.saturating_add(LINES_INTERVAL) {
            self.begun = now;
            self.lines = 0;
        }
        if self.lines >= MOST_LINES {
            return false;
        }
        self.lines += 1;
        true
    }

    /// Whether a line about a monitor was said for this reason since it last agreed. True if there is no such monitor,
    /// so that no line is said about it.
    fn was_said(&self, from: Rank, reason: Reason) -> bool {
        match self.known.get(usize::from(from.get())) {
            Some(known) => known.said[reason.place()],
            None => true,
        }
    }

    fn set_said(&mut self, from: Rank, reason: Reason, said: bool)
        ensures { self.new.answered ≡ self.old.answered }
    {
        if let Some(known) = self.known.get_mut(usize::from(from.get())) {
            known.said[reason.place()] = said;
        }
    }

    /// Says a line, unless it was said since the monitor last agreed, or too many were said. An empty line means that
    /// the monitor agrees.
    fn says<S: Say>(&mut self, from: Rank, reason: Reason, line: &str, now: u64, say: &mut S)
        ensures { self.new.answered ≡ self.old.answered }
    {
        if line.is_empty() {
            self.set_said(from, reason, false);
        } else if !self.was_said(from, reason) && self.admit_line(now) {
            self.set_said(from, reason, true);
            say.say(line);
        }
    }

    fn compares<S: Say>(&mut self, from: Rank, theirs: &Hello, ours: &Hello, now: u64, say: &mut S)
        ensures { self.new.answered ≡ self.old.answered }
    {
        for reason in Reason::IN_HELLO {
            if let Ok(line) = line_of(self.alloc, reason, from, theirs, ours) {
                self.says(from, reason, line.as_str(), now, say);
            }
        }
    }

    /// Takes a monitor's hello, and says how it differs from one's own.
    fn hears<S: Say>(&mut self, from: Rank, theirs: Hello, ours: &Hello, now: u64, say: &mut S)
        ensures { self.new.answered ≡ self.old.answered }
    {
        self.compares(from, &theirs, ours, now, say);
        if let Some(known) = self.known.get_mut(usize::from(from.get())) {
            known.hello = Some(theirs);
            known.heard = now;
        }
    }

    /// Notes whether a monitor's datagram was in the frame of one's own quorum, and says a line if it wasn't.
    fn frames<S: Say>(&mut self, from: Rank, framed: bool, now: u64, say: &mut S)
        ensures { self.new.answered ≡ self.old.answered }
    {
        if framed {
            self.set_said(from, Reason::Unnamed, false);
        } else if !self.was_said(from, Reason::Unnamed)
            && let Ok(line) = unnamed_line(self.alloc, from)
        {
            self.says(from, Reason::Unnamed, line.as_str(), now, say);
        }
    }

    /// Takes a monitor's datagram: a hello, or another one, of which only the frame is looked at.
    fn came<S: Say>(
        &mut self,
        own: &Own,
        from: Rank,
        bytes: &[u8],
        now: u64,
        say: &mut S,
    ) -> Result<(), OutOfMemory>
        ensures { self.new.answered ≡ self.old.answered }
    {
        if !is_hello(bytes) {
            let framed = bytes.starts_with(self.frame.as_slice());
            self.frames(from, framed, now, say);
            return Ok(());
        }
        match Hello::decode(self.alloc, bytes) {
            Ok(theirs) => {
                self.hears(from, theirs, &own.hello, now, say);
                Ok(())
            }
            Err(MapRefused::Form { .. }) => Ok(()),
            Err(MapRefused::OutOfMemory) => Err(OutOfMemory),
        }
    }

    /// The client, if one asked that is answered now.
    pub(crate) fn admits(&mut self, asker: Option<u32>, now: Moment) -> Option<u32>
        ensures admitted { result ≡ admitted now self.old.answered asker }
        ensures after { self.new.answered ≡ untils_after now asker self.old.answered }
    {
        let client = asker?;
        if self.answered.admit(client, now) {
            Some(client)
        } else {
            None
        }
    }

    /// Takes what the link below gave, and says how its sender differs. Returns the client that sent a hello that is no
    /// answer, if one did.
    pub(crate) fn takes<S: Say>(
        &mut self,
        own: &Own,
        got: &Got,
        now: u64,
        say: &mut S,
    ) -> Result<Option<u32>, OutOfMemory>
        ensures asker { IfOk result (λ x. x ≡ asker got.now) }
        ensures answered { self.new.answered ≡ self.old.answered }
    {
        match got {
            Got::Datagram { from, bytes } => match from {
                Peer::Client(client) => asked(self.alloc, *client, bytes.as_slice()),
                Peer::Monitor(rank) => {
                    self.came(own, *rank, bytes.as_slice(), now, say)?;
                    Ok(None)
                }
            },
            Got::Idle | Got::Closed => Ok(None),
        }
    }
}

/// The client, if what it sent is a hello that is no answer.
fn asked(alloc: Global, client: u32, bytes: &[u8]) -> Result<Option<u32>, OutOfMemory>
    ensures { IfOk result (λ x. x ≡ asked_by client (hello_of bytes.now)) }
{
    match Hello::decode(alloc, bytes) {
        Ok(hello) => {
            let answers = hello.answers;
            drop(hello);
            if answers { Ok(None) } else { Ok(Some(client)) }
        }
        Err(MapRefused::Form { .. }) => Ok(None),
        Err(MapRefused::OutOfMemory) => Err(OutOfMemory),
    }
}
