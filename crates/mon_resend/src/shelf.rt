//! The copies for one monitor, each with a note.

ghost use Rattle.std.specs.Prelude.{◌≡◌, ◌≤◌, ◌++◌, ◌∷◌, [], vec_len, if◌then◌else◌};
ghost use Rattle.mon_resend.specs.Copied.{datagram};
ghost use Rattle.mon_resend.specs.Shelves.{applied, bytes_of, first_due, has_room, due_sent};

use crate::note::{Event, NEVER, Note};
use mon_bytes::Bytes;
use mon_link::{Outgoing, Peer};
use std::alloc::Global;
use std::marker::Model;

/// The most datagrams that are kept for one monitor, and the most bytes in all. Both suffice for 64 requests of the
/// greatest length, in two pieces each, and a COMMIT and a BEGIN of the greatest length.
pub(crate) const MOST_KEPT: usize = 160;

pub(crate) const MOST_KEPT_BYTES: usize = 6_291_456;

/// A datagram, and what is noted of it.
#[derive(Drop)]
pub struct Kept {
    pub out: Outgoing,
    pub note: Note,
}

/// At most 160 datagrams, in the order in which they were added. Callers ask `has_room` first, which bounds them by 6
/// MiB in all.
#[derive(Drop)]
pub struct Shelf {
    kept: Vec<Kept>,
    ghost most: { vec_len kept ≤ 160 },
}

impl Model for Shelf {
    ghost use Rattle.std.specs.Prelude.{List};
    ghost use Rattle.mon_resend.specs.declared.shelf.Kept.{Kept as KeptOne};

    ghost Value = { List KeptOne };

    ghost view = { λ s. s.kept.items };
}

impl Shelf {
    pub(crate) fn new(alloc: Global) -> Shelf
        ensures { result ≡ [] }
    {
        Shelf {
            kept: Vec::new(alloc),
        }
    }

    pub(crate) fn kept(&self) -> &[Kept]
        ensures { result.now ≡ self.now }
    {
        self.kept.as_slice()
    }

    /// How many bytes the datagrams have.
    fn bytes(&self) -> usize
        ensures { result ≡ bytes_of self.now }
    {
        let mut bytes: usize = 0;
        for kept in &self.kept {
            bytes = bytes.saturating_add(kept.out.bytes.as_slice().len());
        }
        bytes
    }

    /// Whether there is room for this many datagrams more, of this many bytes in all.
    pub(crate) fn has_room(&self, datagrams: u64, bytes: u64) -> bool
        ensures { result ≡ has_room datagrams bytes self.now }
    {
        (self.kept.len() as u64).saturating_add(datagrams) <= MOST_KEPT as u64
            && (self.bytes() as u64).saturating_add(bytes) <= MOST_KEPT_BYTES as u64
    }

    /// Adds a copy of a datagram, if fewer than 160 are kept and memory suffices. Returns whether it was added.
    pub(crate) fn push(&mut self, alloc: Global, to: Peer, bytes: &[u8], note: Note) -> bool
        ensures { self.new ≡ (if result then self.old ++ record { out = datagram to bytes.now; note = note } ∷ []
            else self.old) }
    {
        if self.kept.len() >= MOST_KEPT {
            return false;
        }
        let Ok(bytes) = Vec::from_slice(alloc, bytes) else {
            return false;
        };
        let out = Outgoing {
            to,
            bytes: Bytes::new(bytes),
        };
        self.kept.push(Kept { out, note }).is_ok()
    }

    /// When the next copy is due, or `NEVER`.
    #[tactic(auto, using(crate::proofs::Dues::due_more))]
    pub(crate) fn due(&self) -> u64
        ensures { result ≡ first_due self.now }
    {
        let mut due = NEVER;
        for kept in &self.kept {
            due = due.min(kept.note.due);
        }
        due
    }

    /// Drops the copies that an event ends, and updates the notes of the others.
    pub(crate) fn apply(&mut self, event: Event, now: u64)
        ensures { self.new ≡ applied event now self.old }
    {
        self.kept.retain(|kept| !kept.note.is_ended(event));
        for kept in self.kept.iter_mut() {
            kept.note = kept.note.after(event, now);
        }
    }

    /// Updates the notes after the due copies were sent, and drops the copies that are due again after `TIMES` copies.
    pub(crate) fn due_sent(&mut self, again: bool, now: u64)
        ensures { self.new ≡ due_sent again now self.old }
    {
        self.kept.retain(|kept| !kept.note.is_spent(now));
        for kept in self.kept.iter_mut() {
            kept.note = kept.note.passed(again, now);
        }
    }
}
