//! The copies for all monitors.

ghost use Rattle.std.specs.Prelude.{◌≡◌, ◌<◌, ◌-◌, length, min};
ghost use Rattle.mon_resend.specs.Copied.{datagram};
ghost use Rattle.mon_resend.specs.World.{all_passed, arrived, began, begins_at, box_of, called_at, due_of, each, first_arrived, fresh, is_sent_now, in_epoch, is_dropped_at, is_first_known, is_taken, is_whole_known, without_ended, risen, sent, unkept_of, whole_arrived, with_box, with_event};
ghost use Rattle.mon_resend.specs.Again.{passed};
ghost use Rattle.mon_link.specs.declared.link.Peer.TheVariants.{Monitor};

use crate::datagram::{Part, part_of};
use crate::note::{Event, NEVER};
use crate::outbox::{Answer, Outbox};
use crate::rows::is_of_epoch;
use crate::shelf::Kept;
use mon_decode::{Header, same_kind};
use mon_types::Rank;
use mon_wire::Kind;
use std::alloc::Global;

/// The copies for each monitor, and the epochs of the messages that were sent and that arrived.
#[derive(Drop)]
pub struct Copies {
    /// By rank.
    pub boxes: [Outbox; 15],
    /// The greatest epoch of a message that went to a monitor or came from one.
    pub epoch: u64,
    /// The epoch of the last message that went to a monitor, or 0 if that was a PROBE: then the monitor is in no quorum.
    pub own: u64,
}

impl Copies {
    /// The state before anything is sent. It takes no memory.
    pub fn new(alloc: Global) -> Copies
        ensures { result ≡ fresh }
    {
        Copies {
            boxes: [
                Outbox::new(alloc),
                Outbox::new(alloc),
                Outbox::new(alloc),
                Outbox::new(alloc),
                Outbox::new(alloc),
                Outbox::new(alloc),
                Outbox::new(alloc),
                Outbox::new(alloc),
                Outbox::new(alloc),
                Outbox::new(alloc),
                Outbox::new(alloc),
                Outbox::new(alloc),
                Outbox::new(alloc),
                Outbox::new(alloc),
                Outbox::new(alloc),
            ],
            epoch: 0,
            own: 0,
        }
    }

    /// How often memory was refused, for all monitors together, at most `u64::MAX`. Counted is each copy that isn't
    /// kept although there is room for it, and each arrived GET_CHUNK that isn't remembered.
    pub fn unkept(&self) -> u64
        ensures { result ≡ unkept_of self.now }
    {
        let mut unkept: u64 = 0;
        for outbox in &self.boxes {
            unkept = unkept.saturating_add(outbox.unkept);
        }
        unkept
    }

    /// What is kept for a monitor.
    pub(crate) fn kept(&self, place: usize) -> &[Kept]
        requires { place < 15 }
        ensures { result.now ≡ (box_of place self.now).shelf }
    {
        self.boxes[place].shelf.kept()
    }

    fn apply(&mut self, event: Event, now: u64)
        ensures { self.new ≡ each event now self.old }
    {
        for place in 0..15 {
            self.apply_at(place, event, now);
        }
    }

    fn apply_at(&mut self, place: usize, event: Event, now: u64)
        requires { place < 15 }
        ensures { self.new ≡ with_box place (with_event event now (box_of place self.old)) self.old }
    {
        self.boxes[place].apply(event, now);
    }

    /// Notes the epoch of a message if it is the greatest so far, and then drops the copies of earlier epochs.
    fn rises(&mut self, header: &Header, now: u64)
        ensures { self.new ≡ risen header.now now self.old }
    {
        if is_of_epoch(header.kind) && self.epoch < header.epoch {
            self.epoch = header.epoch;
            self.apply(Event::Rose(header.epoch), now);
        }
    }

    /// Notes the epoch of a message to any monitor, or 0 for a PROBE.
    fn notes_epoch(&mut self, header: &Header)
        ensures { self.new ≡ in_epoch header.now self.old }
    {
        if same_kind(header.kind, Kind::Probe) {
            self.own = 0;
        } else if is_of_epoch(header.kind) {
            self.own = header.epoch;
        }
    }

    /// Drops the copies that a message to any monitor ends for all monitors: all of them for a PROBE, PROPOSEs for an
    /// ACK.
    fn leaves(&mut self, header: &Header, now: u64)
        ensures { self.new ≡ without_ended header.now now self.old }
    {
        if same_kind(header.kind, Kind::Probe) {
            self.apply(Event::LeftQuorum, now);
        } else if same_kind(header.kind, Kind::Ack) {
            self.apply(Event::Deferred, now);
        }
    }

    fn begins(
        &mut self,
        alloc: Global,
        to: Rank,
        header: Header,
        total: u64,
        bytes: &[u8],
        now: u64,
    ) -> Answer
        ensures after { self.new ≡ began result.has_memory to (datagram (Monitor to) bytes.now) header total now self.old }
        ensures goes { result.verdict ≡ begins_at to header total (length bytes.now) now self.old }
    {
        self.rises(&header, now);
        self.notes_epoch(&header);
        self.leaves(&header, now);
        self.boxes[usize::from(to.get())].begins(alloc, to, header, total, bytes, now)
    }

    /// Notes a datagram for a monitor, and keeps a copy if its message is sent again. `verdict` means that it is sent
    /// now. Otherwise it waits for the answer to an earlier FORWARD, or is lost if there is no room for it.
    pub(crate) fn sends(&mut self, alloc: Global, to: Rank, bytes: &[u8], now: u64) -> Answer
        ensures after { self.new ≡ sent result.has_memory to bytes.now now self.old }
        ensures goes { result.verdict ≡ is_sent_now to bytes.now now self.old }
    {
        match part_of(bytes) {
            Some(Part::Whole(header)) => self.begins(
                alloc,
                to,
                header,
                bytes.len() as u64,
                bytes,
                now,
            ),
            Some(Part::First(header, total)) => self.begins(
                alloc,
                to,
                header,
                u64::from(total),
                bytes,
                now,
            ),
            Some(Part::Later(_)) => self.boxes[usize::from(to.get())].continues(alloc, to, bytes),
            None => Answer::of(true),
        }
    }

    /// Notes a PROPOSE that arrived. Returns whether the message is a PROPOSE that isn't handed up.
    fn take_propose(&mut self, from: Rank, header: &Header, now: u64) -> bool
        ensures after { self.new ≡ called_at from header.now now self.old }
        ensures drops { result ≡ is_dropped_at from header.now now self.old }
    {
        if !same_kind(header.kind, Kind::Propose) {
            return false;
        }
        let own = self.own;
        self.boxes[usize::from(from.get())].take_propose(header.epoch, own, now)
    }

    fn whole_arrives(
        &mut self,
        alloc: Global,
        from: Rank,
        header: &Header,
        bytes: &[u8],
        now: u64,
    ) -> Answer
        ensures after { self.new ≡ whole_arrived result.has_memory from header.now bytes.now now self.old }
        ensures known { result.verdict ≡ is_whole_known from header.now bytes.now now self.old }
    {
        self.rises(header, now);
        if self.take_propose(from, header, now) {
            return Answer::of(true);
        }
        self.boxes[usize::from(from.get())].arrives(alloc, header, bytes, now)
    }

    /// Notes a datagram from a monitor. `verdict` means that it isn't handed up: a kept answer answers it, or it is a
    /// PROPOSE that is dropped. No piece of a long message answers a copy, since another piece may be missing.
    pub(crate) fn arrives(&mut self, alloc: Global, from: Rank, bytes: &[u8], now: u64) -> Answer
        ensures after { self.new ≡ arrived result.has_memory from bytes.now now self.old }
        ensures known { result.verdict ≡ is_taken from bytes.now now self.old }
    {
        match part_of(bytes) {
            Some(Part::Whole(header)) => self.whole_arrives(alloc, from, &header, bytes, now),
            Some(Part::First(header, _)) => self.first_arrives(alloc, from, &header, bytes, now),
            Some(Part::Later(piece)) => {
                self.boxes[usize::from(from.get())].hears_piece(piece, now);
                Answer::of(false)
            }
            None => Answer::of(false),
        }
    }

    fn first_arrives(
        &mut self,
        alloc: Global,
        from: Rank,
        header: &Header,
        bytes: &[u8],
        now: u64,
    ) -> Answer
        ensures after { self.new ≡ first_arrived result.has_memory from header.now bytes.now now self.old }
        ensures known { result.verdict ≡ is_first_known from header.now bytes.now self.old }
    {
        if same_kind(header.kind, Kind::Begin) || same_kind(header.kind, Kind::Forward) {
            return self.boxes[usize::from(from.get())].arrives(alloc, header, bytes, now);
        }
        Answer::of(false)
    }

    /// Updates all copies after the due ones were sent, and drops those that were sent often enough. Without `again`,
    /// only held copies were sent.
    pub(crate) fn passes(&mut self, again: bool, now: u64)
        ensures { self.new ≡ all_passed again now self.old }
    {
        for place in 0..15 {
            self.pass_at(place, again, now);
        }
    }

    fn pass_at(&mut self, place: usize, again: bool, now: u64)
        requires { place < 15 }
        ensures { self.new ≡ with_box place (passed again now (box_of place self.old)) self.old }
    {
        self.boxes[place].passes(again, now);
    }

    /// When the next copy of any monitor is due, or `NEVER`.
    #[tactic(auto, using(crate::proofs::Dues::boxes_next))]
    fn due(&self) -> u64
        ensures { result ≡ due_of self.now }
    {
        let mut due = NEVER;
        for place in 0..15 {
            due = due.min(self.boxes[place].shelf.due());
        }
        due
    }

    /// Milliseconds until the next copy is due, at most `wait`.
    pub(crate) fn next_wait(&self, now: u64, wait: u64) -> u64
        ensures { result ≡ min wait (due_of self.now - now) }
    {
        wait.min(self.due().saturating_sub(now))
    }
}
