//! When a copy is sent, and when it is dropped.

ghost use Rattle.std.specs.Prelude.{◌≡◌};
ghost use Rattle.mon_resend.specs.Shelves.{after_sending_if_due};
ghost use Rattle.mon_resend.specs.Notes.{noted, least_of, is_ended, called, after, is_due, after_sending, is_spent, plus};

use crate::rows::{Way, ends, is_answered, is_asked_again, is_of_epoch, way_of};
use mon_decode::{Header, same_kind};
use mon_wire::Kind;

/// How often a message is sent as a copy before the copy is dropped.
pub(crate) const TIMES: u8 = 16;

/// The time at which a copy is due that is sent only after an event.
pub(crate) const NEVER: u64 = u64::MAX;

/// Up to this wait, in milliseconds, each copy doubles the wait for the next one. A longer first wait stays as it is.
pub(crate) const LONGEST: u64 = 1_000;

/// The least wait before a request for a copy of the store is sent again, and before one for a chunk is, in
/// milliseconds. A second request for a copy ends the first one, and a chunk takes long to read and to send.
pub(crate) const LEAST_OF_COOKIE: u64 = 2_000;

pub(crate) const LEAST_OF_CHUNK: u64 = 100;

/// How long after the last piece of a chunk its GET_CHUNK is sent again, in milliseconds. If no piece was lost, the
/// next GET_CHUNK has replaced it by then.
pub(crate) const AFTER_CHUNK: u64 = 20;

/// How much longer the copies of a long message wait for each of its pieces, in milliseconds.
pub(crate) const PIECE_TIME: u64 = 10;

/// What happens to the copies that are kept for a monitor.
#[derive(Clone, Copy)]
pub enum Event {
    /// A new message of this kind is to be sent to it.
    Sent(Kind),
    /// A message came from it.
    Arrived(Header),
    /// A later piece of a long message came from it.
    Piece { is_last: bool },
    /// This question of it arrived again, and the kept answer is to be sent again.
    Asked(Header),
    /// A message of this epoch, the greatest so far, went to a monitor or came from one.
    Rose(u64),
    /// The own monitor acknowledged another one's proposal.
    Deferred,
    /// The own monitor left its quorum: it probes.
    LeftQuorum,
    /// The FORWARD of this number may go: none before it waits for its ROUTE.
    Released(u64),
}

/// What is noted of a copy, which is a whole message or a piece of one.
#[derive(Clone, Copy)]
pub struct Note {
    pub header: Header,
    /// How many datagrams its message has.
    pub pieces: u64,
    /// When it was sent last, when it is due, and the wait between the two, which each copy doubles up to `LONGEST`; in
    /// milliseconds.
    pub last: u64,
    pub due: u64,
    pub every: u64,
    /// How often it was sent as a copy.
    pub times: u8,
    /// Whether it may be sent without `again`: an answer after its question arrived again, and a FORWARD that had to
    /// wait for an earlier one. It is false once it is sent.
    pub held: bool,
}

/// The least wait before a message of this kind is sent again.
fn least_of(kind: Kind) -> u64
    ensures { result ≡ least_of kind }
{
    if same_kind(kind, Kind::GetCookieFull) || same_kind(kind, Kind::GetCookieRecent) {
        LEAST_OF_COOKIE
    } else if same_kind(kind, Kind::GetChunk) {
        LEAST_OF_CHUNK
    } else {
        0
    }
}

impl Note {
    /// The note of a new message in `pieces` datagrams, which is sent now unless it is held. `wait` is the measured
    /// wait for the monitor's answers.
    pub(crate) fn new(header: Header, pieces: u64, held: bool, wait: u64, now: u64) -> Note
        ensures { result ≡ noted header pieces held wait now }
    {
        let pace = if pieces > 1 {
            pieces.saturating_mul(PIECE_TIME)
        } else {
            0
        };
        let every = wait.max(least_of(header.kind)).saturating_add(pace);
        let rests = held || way_of(header.kind) == Way::WhenAsked;
        Note {
            header,
            pieces,
            last: now,
            due: if rests {
                NEVER
            } else {
                now.saturating_add(every)
            },
            every,
            times: 0,
            held,
        }
    }

    /// Whether an event ends the copy, so that it is dropped.
    pub(crate) fn is_ended(&self, event: Event) -> bool
        ensures { result ≡ is_ended event self.now }
    {
        match event {
            Event::Sent(kind) => ends(kind, self.header.kind),
            Event::Arrived(header) => is_answered(&self.header, &header),
            Event::Rose(epoch) => is_of_epoch(self.header.kind) && self.header.epoch < epoch,
            Event::Deferred => same_kind(self.header.kind, Kind::Propose),
            Event::LeftQuorum => true,
            Event::Piece { .. } | Event::Asked(_) | Event::Released(_) => false,
        }
    }

    /// The note of a copy that is now to be sent, as if for the first time.
    fn called(self, now: u64) -> Note
        ensures { result ≡ called now self }
    {
        Note {
            last: now,
            due: now,
            times: 0,
            held: true,
            ..self
        }
    }

    /// The note after an event that doesn't end the copy.
    pub(crate) fn after(self, event: Event, now: u64) -> Note
        ensures { result ≡ after event now self }
    {
        match event {
            Event::Asked(came) => {
                if is_asked_again(&self.header, &came) {
                    self.called(now)
                } else {
                    self
                }
            }
            Event::Released(seq) => {
                if self.held && self.header.first == seq {
                    self.called(now)
                } else {
                    self
                }
            }
            Event::Piece { is_last } => {
                if same_kind(self.header.kind, Kind::GetChunk) {
                    self.waits(if is_last { AFTER_CHUNK } else { self.every }, now)
                } else {
                    self
                }
            }
            Event::Sent(_)
            | Event::Arrived(_)
            | Event::Rose(_)
            | Event::Deferred
            | Event::LeftQuorum => self,
        }
    }

    /// The note if the copy is due after `time` milliseconds.
    fn waits(self, time: u64, now: u64) -> Note
        ensures { result ≡ record self { due = plus now time } }
    {
        Note {
            due: now.saturating_add(time),
            ..self
        }
    }

    /// Whether the copy is to be sent now. Without `again`, only a held one is.
    pub(crate) fn is_due(&self, again: bool, now: u64) -> bool
        ensures { result ≡ is_due again now self.now }
    {
        self.due <= now && (again || self.held) && self.times < TIMES
    }

    /// Whether the copy is due again although it was sent `TIMES` times.
    pub(crate) fn is_spent(&self, now: u64) -> bool
        ensures { result ≡ is_spent now self.now }
    {
        self.due <= now && TIMES <= self.times
    }

    /// The note after the copy was sent.
    pub(crate) fn after_sending(self, now: u64) -> Note
        ensures { result ≡ after_sending now self }
    {
        if way_of(self.header.kind) == Way::WhenAsked {
            return Note {
                due: NEVER,
                held: false,
                ..self
            };
        }
        if self.held {
            return Note {
                due: now.saturating_add(self.every),
                held: false,
                ..self
            };
        }
        let every = self.every.saturating_mul(2).min(self.every.max(LONGEST));
        Note {
            last: now,
            due: now.saturating_add(every),
            every,
            times: self.times.saturating_add(1),
            ..self
        }
    }

    /// The note after the due copies were sent: it changes if this copy was among them.
    pub(crate) fn passed(self, again: bool, now: u64) -> Note
        ensures { result ≡ after_sending_if_due again now self }
    {
        if self.is_due(again, now) {
            self.after_sending(now)
        } else {
            self
        }
    }
}
