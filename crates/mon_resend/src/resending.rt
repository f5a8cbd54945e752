//! A link over another one that sends unanswered messages again.

ghost use Rattle.std.specs.Prelude.{◌≡◌, ◌<◌, ◌++◌, ◌∷◌, ◌⊎◌, [], Ok, slice_get, option_map};
ghost use Rattle.mon_resend.specs.Copied.{AreOf, AsksOnce, datagram};
ghost use Rattle.mon_resend.specs.Histories.{NothingKept, ResendingDoes};
ghost use Rattle.mon_resend.specs.Sending.{Receives, Sends, SendsEach, isnt_handed_up, may_go, outs, run_after, with_got};
ghost use Rattle.mon_resend.specs.Shelves.{due_copies, due_copy_at};
ghost use Rattle.mon_resend.specs.World.{all_due_copies, all_passed, box_of, fresh, is_sent_now, sent, unkept_of};
ghost use Rattle.mon_link.specs.Clocks.{after};
ghost use Rattle.mon_link.specs.Histories.{GoesOn};
ghost use Rattle.mon_link.specs.Histories.Happened.{Received, WasSent};
ghost use Rattle.mon_link.specs.Layers.{Above, Grows, Sent};
ghost use Rattle.mon_link.specs.Links.{CallsSend, unseen};
ghost use Rattle.mon_link.specs.declared.link.Peer.TheVariants.{Monitor};

use crate::copies::Copies;
use crate::outbox::Answer;
use mon_link::{Clock, Got, Keeps, Link, Peer};
use mon_types::{Rank, Stop};
use std::alloc::Global;

/// After this many datagrams in a row copies are sent, although more datagrams may wait in the link below.
pub(crate) const RUN: u64 = 64;

/// A link, and copies of what it was given to send to monitors: for each monitor at most 160 datagrams of 6 MiB in all.
#[derive(Drop)]
pub struct Resending<L: Link + Drop, C: Clock + Drop> {
    pub inner: L,
    pub clock: C,
    pub copies: Copies,
    pub run: u64,
    alloc: Global,
}

impl<L: Link + Drop, C: Clock + Drop> Resending<L, C> {
    /// A link over `inner` that keeps nothing yet.
    pub fn new(alloc: Global, inner: L, clock: C) -> Resending<L, C>
        ensures inner { result.inner ≡ inner }
        ensures copies { result.copies ≡ fresh }
    {
        Resending {
            inner,
            clock,
            copies: Copies::new(alloc),
            run: 0,
            alloc,
        }
    }

    /// Drops all copies, as a new link over the same one.
    pub fn forget(&mut self)
        ensures inner { self.new.inner ≡ self.old.inner }
        ensures clock { self.new.clock ≡ self.old.clock }
        ensures copies { self.new.copies ≡ fresh }
    {
        self.copies = Copies::new(self.alloc);
        self.run = 0;
    }

    /// Sends one of the copies for a monitor, if it is due. A failure of the link below is ignored.
    fn repeat_one(&mut self, place: usize, at: usize, again: bool, now: u64)
        requires { place < 15 }
        ensures sends { SendsEach (due_copy_at again now (slice_get (box_of place self.old.copies).shelf at)) (L.state self.old.inner) (L.state self.new.inner) }
        ensures grows { Grows (L.history self.old.inner) (Sent (due_copy_at again now (slice_get (box_of place self.old.copies).shelf at))) (L.history self.new.inner) }
        ensures others { (self.new.copies ≡ self.old.copies) × (self.new.run ≡ self.old.run) }
    {
        let Some(kept) = self.copies.kept(place).get(at) else {
            return;
        };
        if !kept.note.is_due(again, now) {
            return;
        }
        let _ = self.inner.send(kept.out.to, kept.out.bytes.as_slice());
    }

    /// Sends the due copies for one monitor.
    fn repeat_at(&mut self, place: usize, again: bool, now: u64)
        requires { place < 15 }
        ensures sends { SendsEach (due_copies again now (box_of place self.old.copies).shelf) (L.state self.old.inner) (L.state self.new.inner) }
        ensures grows { Grows (L.history self.old.inner) (Sent (due_copies again now (box_of place self.old.copies).shelf)) (L.history self.new.inner) }
        ensures others { (self.new.copies ≡ self.old.copies) × (self.new.run ≡ self.old.run) }
    {
        for at in 0..self.copies.kept(place).len() {
            self.repeat_one(place, at, again, now);
        }
    }

    /// Sends the due copies, monitor by monitor, and updates their notes.
    fn repeat(&mut self, again: bool, now: u64)
        ensures sends { SendsEach (all_due_copies again now self.old.copies) (L.state self.old.inner) (L.state self.new.inner) }
        ensures grows { Grows (L.history self.old.inner) (Sent (all_due_copies again now self.old.copies)) (L.history self.new.inner) }
        ensures kept { self.new.copies ≡ all_passed again now self.old.copies }
        ensures run { self.new.run ≡ self.old.run }
    {
        for place in 0..15 {
            self.repeat_at(place, again, now);
        }
        self.copies.passes(again, now);
    }

    fn passes(&mut self, to: Peer, bytes: &[u8]) -> Result<(), Stop>
        ensures sends { CallsSend to bytes.now result (L.state self.old.inner) (L.state self.new.inner) }
        ensures goes_on { GoesOn (L.history self.old.inner) (WasSent to bytes.now result) (L.history self.new.inner) }
        ensures kept { self.new.copies ≡ self.old.copies }
    {
        self.inner.send(to, bytes)
    }

    /// Counts consecutive datagrams. Returns whether messages may be sent again: if the link below gave no datagram, or
    /// `RUN` in a row. Until then, an answer may be among the datagrams that wait in it.
    fn note_arrival(&mut self, got: &Got) -> bool
        ensures may { result ≡ may_go got.now self.old.run }
        ensures run { self.new ≡ record self.old { run = run_after got.now self.old.run } }
    {
        if let Got::Datagram { .. } = got {
            self.run = self.run.saturating_add(1);
            if self.run < RUN {
                return false;
            }
        }
        self.run = 0;
        true
    }

    /// Notes what the link below gave. `verdict` means that it isn't handed up.
    fn note(&mut self, got: &Got, now: u64) -> Answer
        ensures kept { self.new ≡ record self.old { copies = with_got result.has_memory got.now now self.old.copies } }
        ensures known { result.verdict ≡ isnt_handed_up got.now now self.old.copies }
    {
        match got {
            Got::Datagram { from, bytes } => match from {
                Peer::Monitor(rank) => self
                    .copies
                    .arrives(self.alloc, *rank, bytes.as_slice(), now),
                Peer::Client(_) => Answer::of(false),
            },
            Got::Idle | Got::Closed => Answer::of(false),
        }
    }

    /// Keeps a copy of a datagram if its message is sent again. `verdict` means that the datagram is sent now.
    fn keep_copy(&mut self, to: Rank, bytes: &[u8], now: u64) -> Answer
        ensures kept { self.new ≡ record self.old { copies = sent result.has_memory to bytes.now now self.old.copies } }
        ensures goes { result.verdict ≡ is_sent_now to bytes.now now self.old.copies }
    {
        self.copies.sends(self.alloc, to, bytes, now)
    }
}

impl<L: Link + Drop, C: Clock + Drop> Link for Resending<L, C> {
    ghost state = { λ r. unseen (L.state r.inner).faults };

    ghost history = { λ r. Above ResendingDoes NothingKept (L.history r.inner) r.copies };

    /// Asks the link below once, and waits at most until a copy is due. Then sends the due copies. Returns `Idle` for a
    /// datagram that isn't handed up, and an error of the link below at once.
    fn next(&mut self, wait: u64) -> Result<Got, Stop>
        ensures exactly { Receives wait (C.left self.old.clock) self.old.run self.old.copies (L.state self.old.inner) result self.new.run self.new.copies (L.state self.new.inner) }
        ensures asks { AsksOnce wait (outs self.old.copies) result (L.state self.old.inner) (L.state self.new.inner) }
        ensures kept { AreOf (outs self.old.copies) (outs self.new.copies) }
        ensures does { Grows (L.history self.old.inner)
            (λ calls. ResendingDoes self.old.copies (Received wait result) calls self.new.copies) (L.history self.new.inner) }
    {
        let before = self.clock.now().get();
        let rest = self.copies.next_wait(before, wait);
        let got = self.inner.next(rest)?;
        let now = self.clock.now().get();
        let again = self.note_arrival(&got);
        let known = self.note(&got, now);
        self.repeat(again, now);
        if known.verdict {
            return Ok(Got::Idle);
        }
        Ok(got)
    }

    /// Sends a datagram, or keeps a FORWARD until the one before it is answered. `Ok` doesn't mean that it was sent:
    /// one that must wait is lost if there is no room or memory for it.
    fn send(&mut self, to: Peer, bytes: &[u8]) -> Result<(), Stop>
        ensures exactly { Sends to bytes.now (C.left self.old.clock) self.old.copies (L.state self.old.inner) result self.new.copies (L.state self.new.inner) }
        ensures sends { (CallsSend to bytes.now result (L.state self.old.inner) (L.state self.new.inner))
            ⊎ ((result ≡ Ok tt) × (self.new.inner ≡ self.old.inner)) }
        ensures kept { AreOf (outs self.old.copies ++ datagram to bytes.now ∷ []) (outs self.new.copies) }
        ensures does { Grows (L.history self.old.inner)
            (λ calls. ResendingDoes self.old.copies (WasSent to bytes.now result) calls self.new.copies) (L.history self.new.inner) }
    {
        match to {
            Peer::Monitor(rank) => {
                let now = self.clock.now().get();
                if !self.keep_copy(rank, bytes, now).verdict {
                    return Ok(());
                }
                self.passes(Peer::Monitor(rank), bytes)
            }
            Peer::Client(number) => self.passes(Peer::Client(number), bytes),
        }
    }
}

impl<L: Link + Drop, C: Clock + Drop> Keeps for Resending<L, C> {
    ghost unkept = { λ r. unkept_of r.copies };

    fn unkept(&self) -> u64 {
        self.copies.unkept()
    }
}
