//! The copies that are kept for one monitor, and how each message to it or from it changes them.

ghost use Rattle.std.specs.Prelude.{◌≡◌, true, false, if◌then◌else◌, [], find, is_some, length, not, option_map};
ghost use Rattle.std.specs.List.{list_any};
ghost use Rattle.mon_resend.specs.Copied.{datagram};
ghost use Rattle.mon_resend.specs.Again.{nothing, first_forward, happened, held_forward, released, cleared, note_of, under_way_of, fits, copied, counted_if, begun, begins_now, continued, continues_now, measured_by, heard, knows, answered, answered_one, received, is_known, called, is_dropped, is_past, piece_arrived, passed};
ghost use Rattle.mon_link.specs.declared.link.Peer.TheVariants.{Monitor};

use crate::calls::{Acknowledged, Earlier};
use crate::datagram::Piece;
use crate::measure::Measure;
use crate::note::{Event, Note};
use crate::rows::{Way, is_answered, is_asked_again, is_measured, way_of};
use crate::shelf::{Kept, Shelf};
use mon_bytes::Bytes;
use mon_decode::{Header, same_kind};
use mon_frag::{PART, PIECE_HEADER};
use mon_link::Peer;
use mon_types::Rank;
use mon_wire::Kind;
use std::alloc::Global;

/// The long message of which a piece was the last datagram to the monitor.
#[derive(Clone, Copy)]
pub enum UnderWay {
    /// The last datagram was no piece, or its message is sent without copies.
    Nothing,
    /// Copies of its pieces are kept.
    Kept(Note),
    /// It must wait for an earlier message, but there is no room for its copies. It is lost.
    Lost,
}

/// What distinguishes a long message from the others of its sender.
#[derive(Clone, Copy)]
pub struct Number {
    pub boot: u64,
    pub seq: u64,
}

/// The Boolean result of a step, and whether memory sufficed for what the step had to keep.
#[derive(Clone, Copy)]
pub struct Answer {
    pub verdict: bool,
    pub has_memory: bool,
}

impl Answer {
    /// The answer of a step that had nothing to keep.
    pub(crate) fn of(verdict: bool) -> Answer
        ensures { result ≡ record { verdict = verdict; has_memory = true } }
    {
        Answer {
            verdict,
            has_memory: true,
        }
    }
}

/// The copies for one monitor.
#[derive(Drop)]
pub struct Outbox {
    pub shelf: Shelf,
    pub measure: Measure,
    pub under_way: UnderWay,
    /// The last GET_CHUNK that arrived, or nothing if memory was refused for it. A kept CHUNK answers it.
    pub asked: Bytes,
    /// `heard`: the long message of the later piece that arrived last. `past`: what `heard` was when the last GET_CHUNK
    /// was sent, which asks for what follows that message.
    pub heard: Option<Number>,
    pub past: Option<Number>,
    /// What decides whether a PROPOSE from it is handed up: one of an earlier epoch, and one that was acknowledged.
    pub earlier: Earlier,
    pub acknowledged: Acknowledged,
    /// How often memory was refused for a copy, or to remember a GET_CHUNK that arrived. At most `u64::MAX`.
    pub unkept: u64,
}

impl Outbox {
    pub(crate) fn new(alloc: Global) -> Outbox
        ensures { result ≡ nothing }
    {
        Outbox {
            shelf: Shelf::new(alloc),
            measure: Measure::none(),
            under_way: UnderWay::Nothing,
            asked: Bytes::new(Vec::new(alloc)),
            heard: None,
            past: None,
            earlier: Earlier::none(),
            acknowledged: Acknowledged::none(),
            unkept: 0,
        }
    }

    /// The oldest FORWARD that is kept. The later ones wait for its ROUTE.
    fn first_forward(&self) -> Option<&Kept>
        ensures { option_map (λ k. k.now) result ≡ first_forward self.now.shelf }
    {
        self.shelf
            .kept()
            .iter()
            .find(|kept| same_kind(kept.note.header.kind, Kind::Forward))
    }

    /// The number of the first FORWARD, if it is held.
    fn held_forward(&self) -> Option<u64>
        ensures { result ≡ held_forward self.now.shelf }
    {
        let Some(kept) = self.first_forward() else {
            return None;
        };
        if kept.note.held {
            Some(kept.note.header.first)
        } else {
            None
        }
    }

    /// Makes the first FORWARD due now if it is held.
    fn release(&mut self, now: u64)
        ensures { self.new ≡ record self.old { shelf = released now self.old.shelf } }
    {
        if let Some(seq) = self.held_forward() {
            self.shelf.apply(Event::Released(seq), now);
        }
    }

    /// Applies an event to the copies. Then the first FORWARD is due if it is still held.
    pub(crate) fn apply(&mut self, event: Event, now: u64)
        ensures { self.new ≡ record self.old { shelf = happened event now self.old.shelf } }
    {
        self.shelf.apply(event, now);
        self.release(now);
    }

    /// Drops the copies that a new message ends, and notes what a GET_CHUNK or an ACK changes.
    fn clears(&mut self, header: &Header, now: u64)
        ensures { self.new ≡ cleared header.now now self.old }
    {
        self.under_way = UnderWay::Nothing;
        if same_kind(header.kind, Kind::GetChunk) {
            self.past = self.heard;
        }
        if same_kind(header.kind, Kind::Ack) {
            self.acknowledged = self.acknowledged.in_epoch(header.epoch, now);
        }
        self.apply(Event::Sent(header.kind), now);
    }

    /// The note of a message of `total` bytes whose first datagram has `length` bytes.
    fn note_of(&self, header: Header, total: u64, length: u64, now: u64) -> Note
        ensures { result ≡ note_of header total length now self.now }
    {
        let pieces = if total == length {
            1
        } else {
            total.div_ceil(u64::from(PART))
        };
        let held = same_kind(header.kind, Kind::Forward) && self.first_forward().is_some();
        Note::new(header, pieces, held, self.measure.wait(), now)
    }

    /// Whether there is room for the whole of a message.
    fn fits(&self, note: &Note, total: u64) -> bool
        ensures { result ≡ fits note.now total self.now.shelf }
    {
        let before = note.pieces.saturating_mul(PIECE_HEADER as u64);
        self.shelf
            .has_room(note.pieces, total.saturating_add(before))
    }

    /// Adds one to `unkept` if memory was refused.
    fn counts(&mut self, has_memory: bool)
        ensures { self.new ≡ counted_if (not has_memory) self.old self.old }
    {
        if !has_memory {
            self.unkept = self.unkept.saturating_add(1);
        }
    }

    /// Keeps a copy if there is room for it. Returns false, and counts it, if memory is refused.
    fn keep(&mut self, alloc: Global, to: Rank, bytes: &[u8], note: Note) -> bool
        ensures { self.new ≡ copied result (datagram (Monitor to) bytes.now) note self.old }
    {
        if !self.shelf.has_room(1, bytes.len() as u64) {
            return true;
        }
        let has_memory = self.shelf.push(alloc, Peer::Monitor(to), bytes, note);
        self.counts(has_memory);
        has_memory
    }

    /// Keeps a copy of the first datagram of a message, if there is room for the whole message. `verdict` means that
    /// the datagram is sent now. A FORWARD waits until the one before it is answered, since the leader takes none after
    /// a later one. A FORWARD that must wait and has no room is lost.
    pub(crate) fn begins(
        &mut self,
        alloc: Global,
        to: Rank,
        header: Header,
        total: u64,
        bytes: &[u8],
        now: u64,
    ) -> Answer
        ensures after { self.new ≡ begun result.has_memory (datagram (Monitor to) bytes.now) header total now self.old }
        ensures goes { result.verdict ≡ begins_now header total (length bytes.now) now self.old }
    {
        self.clears(&header, now);
        if way_of(header.kind) == Way::Never {
            return Answer::of(true);
        }
        let note = self.note_of(header, total, bytes.len() as u64, now);
        let verdict = !note.held;
        let fits = self.fits(&note, total);
        self.under_way = under_way_of(note, fits);
        if !fits {
            return Answer::of(verdict);
        }
        let has_memory = self.keep(alloc, to, bytes, note);
        Answer {
            verdict,
            has_memory,
        }
    }

    /// Keeps a copy of a later piece, if its message is one of which copies are kept. `verdict` means that the piece is
    /// sent now.
    pub(crate) fn continues(&mut self, alloc: Global, to: Rank, bytes: &[u8]) -> Answer
        ensures after { self.new ≡ continued result.has_memory (datagram (Monitor to) bytes.now) self.old }
        ensures goes { result.verdict ≡ continues_now self.old.under_way }
    {
        match self.under_way {
            UnderWay::Kept(note) => {
                let has_memory = self.keep(alloc, to, bytes, note);
                Answer {
                    verdict: !note.held,
                    has_memory,
                }
            }
            UnderWay::Lost => Answer::of(false),
            UnderWay::Nothing => Answer::of(true),
        }
    }

    /// The first copy that the arrived message answers and whose answers are measured. It is no piece of a long
    /// message.
    fn answered(&self, came: &Header) -> Option<&Kept>
        ensures { option_map (λ k. k.now) result ≡ answered_one came.now self.now.shelf }
    {
        self.shelf.kept().iter().find(|kept| {
            kept.note.pieces == 1
                && is_measured(kept.note.header.kind)
                && is_answered(&kept.note.header, came)
        })
    }

    /// The measure after a message arrived. It changes only if the message answers a measured copy.
    fn measured(&self, came: &Header, now: u64) -> Measure
        ensures { result ≡ measured_by came.now now self.now }
    {
        match self.answered(came) {
            Some(kept) => self
                .measure
                .after(now.saturating_sub(kept.note.last), kept.note.times),
            None => self.measure,
        }
    }

    /// Notes an arrived message that no copy answers: measures it if it is an answer, and drops the copies that it
    /// answers.
    fn hears(&mut self, came: &Header, now: u64)
        ensures { self.new ≡ heard came.now now self.old }
    {
        self.measure = self.measured(came, now);
        self.apply(Event::Arrived(*came), now);
    }

    /// Whether the answer to a question is kept.
    fn has_answer(&self, came: &Header) -> bool
        ensures { result ≡ knows came.now self.now.shelf }
    {
        self.shelf
            .kept()
            .iter()
            .any(|kept| is_asked_again(&kept.note.header, came))
    }

    /// Makes the kept answer to an arrived question due again. Returns whether there is such an answer.
    fn answer_again(&mut self, came: &Header, now: u64) -> bool
        ensures after { self.new ≡ answered came.now now self.old }
        ensures knows { result ≡ knows came.now self.old.shelf }
    {
        if !self.has_answer(came) {
            return false;
        }
        self.apply(Event::Asked(*came), now);
        true
    }

    /// Notes an arrived message. `verdict` means that the kept answer is sent again and the message isn't handed up.
    /// The monitor would sync a repeated BEGIN once more, and a new CHUNK's pieces don't complete those of the earlier
    /// one. A FORWARD is always handed up.
    pub(crate) fn arrives(&mut self, alloc: Global, came: &Header, bytes: &[u8], now: u64) -> Answer
        ensures after { self.new ≡ received result.has_memory came.now bytes.now now self.old }
        ensures known { result.verdict ≡ is_known came.now bytes.now self.old }
    {
        if same_kind(came.kind, Kind::Begin) {
            return Answer::of(self.answer_again(came, now));
        }
        if same_kind(came.kind, Kind::Forward) {
            self.answer_again(came, now);
            return Answer::of(false);
        }
        if !same_kind(came.kind, Kind::GetChunk) {
            self.hears(came, now);
            return Answer::of(false);
        }
        if self.asked.as_slice() == bytes {
            return Answer::of(self.answer_again(came, now));
        }
        let has_memory = self.remembers_question(alloc, bytes);
        self.hears(came, now);
        Answer {
            verdict: false,
            has_memory,
        }
    }

    /// Remembers an arrived GET_CHUNK as the last one. Returns false, and counts it, if memory is refused.
    fn remembers_question(&mut self, alloc: Global, bytes: &[u8]) -> bool
        ensures { self.new ≡ counted_if (not result) self.old
            (record self.old { asked = if result then bytes.now else [] }) }
    {
        let asked = Vec::from_slice(alloc, bytes);
        let has_memory = asked.is_ok();
        self.asked = Bytes::new(asked.unwrap_or(Vec::new(alloc)));
        self.counts(has_memory);
        has_memory
    }

    /// Notes an arrived PROPOSE, and returns whether it isn't handed up. `own` is the epoch of the last message that
    /// was sent to any monitor, or 0 after a PROBE. In a quorum, a PROPOSE of an earlier epoch is dropped during the
    /// rest that follows the last one that was handed up. A PROPOSE that was acknowledged is dropped if its sender
    /// hears no acknowledgement.
    pub(crate) fn take_propose(&mut self, epoch: u64, own: u64, now: u64) -> bool
        ensures after { self.new ≡ called epoch own now self.old }
        ensures drops { result ≡ is_dropped epoch own now self.old }
    {
        if epoch < own && own % 2 == 0 {
            return match self.earlier.after(now) {
                Some(earlier) => {
                    self.earlier = earlier;
                    false
                }
                None => true,
            };
        }
        if epoch == own && epoch == self.acknowledged.epoch {
            self.acknowledged = self.acknowledged.after(now);
            return self.acknowledged.drops(now);
        }
        false
    }

    /// Whether a piece is of the long message that the last GET_CHUNK follows.
    fn is_past(&self, piece: Piece) -> bool
        ensures { result ≡ is_past piece self.now.past }
    {
        match self.past {
            Some(past) => past.boot == piece.boot && past.seq == piece.seq,
            None => false,
        }
    }

    /// Notes a later piece of a long message. It changes when the GET_CHUNK is due, unless it is a late piece of the
    /// message that the GET_CHUNK follows.
    pub(crate) fn hears_piece(&mut self, piece: Piece, now: u64)
        ensures { self.new ≡ piece_arrived piece now self.old }
    {
        self.heard = Some(Number {
            boot: piece.boot,
            seq: piece.seq,
        });
        if !self.is_past(piece) {
            self.apply(
                Event::Piece {
                    is_last: piece.is_last,
                },
                now,
            );
        }
    }

    /// Updates the copies after the due ones were sent. Without `again`, only held copies were sent.
    pub(crate) fn passes(&mut self, again: bool, now: u64)
        ensures { self.new ≡ passed again now self.old }
    {
        self.shelf.due_sent(again, now);
        self.release(now);
    }
}

/// What is under way after the first datagram of a message, given whether there is room for the whole message.
fn under_way_of(note: Note, fits: bool) -> UnderWay
    ensures { result ≡ under_way_of note fits }
{
    if note.pieces <= 1 {
        UnderWay::Nothing
    } else if fits {
        UnderWay::Kept(note)
    } else if note.held {
        UnderWay::Lost
    } else {
        UnderWay::Nothing
    }
}
