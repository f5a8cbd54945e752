//! The laws, over every list of steps.

ghost use Rattle.std.specs.Prelude.{◌≡◌, ℕ, ◌<◌, ◌≤◌, min, Bool, true, false, List, [], ◌∷◌, ◌++◌, Some, ◌||◌};
ghost use Rattle.std.specs.List.{AllByRecursion};
ghost use Rattle.std.specs.List.Sorted.{IsNonDecreasing};
ghost use Rattle.mon_decode.specs.Headers.{same_kind};
ghost use Rattle.mon_decode.specs.declared.header.Header.{Header};
ghost use Rattle.mon_link.specs.declared.link.Outgoing.{Outgoing};
ghost use Rattle.mon_resend.specs.declared.copies.Copies.{Copies};
ghost use Rattle.mon_resend.specs.declared.datagram.Part.TheVariants.{Whole};
ghost use Rattle.mon_resend.specs.declared.note.Event.TheVariants.{Asked};
ghost use Rattle.mon_resend.specs.declared.note.Note.{Note};
ghost use Rattle.mon_resend.specs.declared.outbox.Outbox.{Outbox};
ghost use Rattle.mon_resend.specs.declared.rows.Way.TheVariants.{ByTime};
ghost use Rattle.mon_resend.specs.declared.shelf.Kept.{Kept};
ghost use Rattle.mon_resend.specs.Again.{first_forward, note_of};
ghost use Rattle.mon_resend.specs.Copied.{IsOneOf};
ghost use Rattle.mon_resend.specs.Datagrams.{part_of};
ghost use Rattle.mon_resend.specs.Notes.{after, after_sending, is_due};
ghost use Rattle.mon_resend.specs.Rows.{is_answered, is_asked_again, way_of};
ghost use Rattle.mon_resend.specs.World.{all_due_copies, all_passed, arrived, asks, box_of, is_taken};
ghost use Rattle.mon_wire.specs.declared.kind.Kind.TheVariants.{GetChunk};
ghost use Rattle.resend_laws.specs.Copies.{EachAt, IsNotSent, IsOver, IsTried, IsUpTo, StaysOver};
ghost use Rattle.resend_laws.specs.Forwards.{IsBeforeEnd, IsLeast, begun, kept_for, leave, leave_in};
ghost use Rattle.resend_laws.specs.Leaving.{IsDueAgain, IsKept, IsNotEnded, IsUntried, LeavesIn, SomeAt};
ghost use Rattle.resend_laws.specs.Runs.{IsInOrder, Step, rounds, run};

/// No copy that is sent again by time is kept for ever, unless it is held or a GET_CHUNK. Let each of its waits be at
/// most `wait` milliseconds, and `wait` a second or more. The copy is dropped by the time that copies could be sent 17
/// times, each at least `wait` after the one before, whatever else is sent and arrives.
pub fn law_dropped()
    ensures { (c : Copies) (rank : ℕ) (x : Outgoing) (wait since : ℕ) (steps : List Step) → 1000 ≤ wait
        → EachAt rank x (IsTried wait since) c → IsNotSent x steps → IsInOrder since steps
        → 16 < rounds wait since steps → IsOver rank x (run steps c) }
{}

/// A message in one datagram that is sent now, is sent again by time and is no GET_CHUNK waits at most 2 seconds each
/// time. So, by `law_dropped`, its copy is dropped by the time that copies could be sent 17 times, 2 seconds apart.
pub fn law_tried()
    ensures { (h : Header) (length now : ℕ) (b : Outbox) → way_of h.kind ≡ ByTime → same_kind h.kind GetChunk ≡ false
        → (note_of h length length now b).held ≡ false → IsTried 2000 now (note_of h length length now b) }
{}

/// Copies leave. Each copy that is due is sent when copies are, and so is an answer whose question arrived again. A copy
/// that is sent again by time, isn't held and is no GET_CHUNK is then due again after at most `wait` milliseconds, which
/// are a second or more and no less than its last wait. It leaves in each of the first 16 rounds, each at least `wait`
/// after the one before, unless something that is sent or arrives ends it. By `law_tried`, `wait` is 2 seconds for a
/// message in one datagram.
pub fn law_leaves()
    ensures due { (c : Copies) (rank : ℕ) (x : Outgoing) (again : Bool) (now : ℕ)
        → SomeAt rank x (λ n. is_due again now n ≡ true) c → IsOneOf (all_due_copies again now c) x }
    ensures asked { (n : Note) (h : Header) (again : Bool) (since now : ℕ) → is_asked_again n.header h ≡ true
        → since ≤ now → is_due again now (after (Asked h) since n) ≡ true }
    ensures again { (n : Note) (wait now : ℕ) → 1000 ≤ wait → n.every ≤ wait → way_of n.header.kind ≡ ByTime
        → n.held ≡ false → is_due true now n ≡ true → IsDueAgain wait now n (after_sending now n) }
    ensures each_round { (c : Copies) (rank : ℕ) (x : Outgoing) (wait since : ℕ) (steps : List Step) → 1000 ≤ wait
        → EachAt rank x (IsUntried wait since) c → IsKept rank x c → IsNotSent x steps → IsInOrder since steps
        → IsNotEnded rank x steps c → LeavesIn (min 16 (rounds wait since steps)) x steps c }
{}

/// A message that was answered isn't sent again, whatever is sent and arrives later, until it is sent anew. The answer has to
/// be handed up, and no BEGIN, FORWARD or GET_CHUNK: such a question may only repeat an earlier one.
pub fn law_answered()
    ensures { (c : Copies) (memory : Bool) (rank : ℕ) (bytes : List ℕ) (now : ℕ) (h : Header) (x : Outgoing)
        → part_of bytes ≡ Some (Whole h) → is_taken rank bytes now c ≡ false
        → (asks h || same_kind h.kind GetChunk) ≡ false
        → EachAt rank x (λ n. is_answered n.header h ≡ true) c → StaysOver rank x (arrived memory rank bytes now c) }
{}

/// No copy of a quorum's message outlasts its epoch. Once a message of a greater epoch than all before was sent or
/// arrived, the copies of earlier epochs are dropped. They aren't sent again until their messages are sent anew.
pub fn law_older()
    ensures { (c : Copies) (rank : ℕ) (x : Outgoing) (steps : List Step) → EachAt rank x (IsUpTo c.epoch) c
        → IsNotSent x steps → c.epoch < (run steps c).epoch → IsOver rank x (run steps c) }
{}

/// FORWARDs are sent in order. Let none be kept for a monitor, and let the numbers of those that are given to send to
/// it never decrease. Then the numbers of those whose datagrams are sent to it never decrease, later pieces and copies
/// included. When one is sent, none of a lesser number is kept: each was answered or given up, or ended by a greater
/// epoch or a PROBE, or it had no copy.
pub fn law_forwards()
    ensures in_order { (c : Copies) (rank : ℕ) (steps : List Step) → kept_for rank c ≡ []
        → IsNonDecreasing (begun rank steps) → IsBeforeEnd steps → IsNonDecreasing (leave rank steps c) }
    ensures one_by_one { (c : Copies) (rank : ℕ) (steps : List Step) (s : Step) → kept_for rank c ≡ []
        → IsNonDecreasing (begun rank (steps ++ s ∷ [])) → IsBeforeEnd (steps ++ s ∷ [])
        → AllByRecursion (λ q. IsLeast rank q (run (steps ++ s ∷ []) c)) (leave_in rank s (run steps c)) }
{}

/// The next FORWARD is sent once none before it is kept. After a time at which copies could be sent, the first FORWARD
/// that is kept was sent already, or it is sent at the next such time.
pub fn law_next_forward()
    ensures { (c : Copies) (rank : ℕ) (before again : Bool) (since now : ℕ) (k : Kept)
        → first_forward (box_of rank (all_passed before since c)).shelf ≡ Some k → k.note.held ≡ true → since ≤ now
        → is_due again now k.note ≡ true }
{}
