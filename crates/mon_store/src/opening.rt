//! Opening the two disks of a store.

ghost use Rattle.std.specs.Prelude.{◌≡◌, ◌≤◌, ◌<◌, false, [], is_some, Ok, None, IfOk, IfErr, OnOk, IfSome, IsTrue};
ghost use Rattle.mon_disk.specs.Images.{LeavesOnly};
ghost use Rattle.mon_disk.specs.Calls.{Called, Makes};
ghost use Rattle.mon_kv.specs.Readers.{size_of};
ghost use Rattle.mon_journal.specs.Content.{content, held_by, payloads_of, Holds, Gives as JournalGives};
ghost use Rattle.mon_journal.specs.Steps.{AlikeFrom, CreatedFrom, made_more, Made, Opens, on_disk, Keeps, open_calls, create_calls, stop_in as journal_stop};
ghost use Rattle.mon_journal.specs.Written.{owner_of, created};
ghost use Rattle.std.specs.FinMap.{empty};
ghost use Rattle.mon_store.specs.Checkpoint.{most_size};
ghost use Rattle.mon_store.specs.Payloads.{map_of};
ghost use Rattle.mon_store.specs.Pair.{Live, taken, found};
ghost use Rattle.mon_store.specs.Times.{Meanwhile, WhileOpening};
ghost use Rattle.mon_types.specs.Sides.{other as other_side};
ghost use Rattle.mon_store.specs.Sound.{of_live, Sound};
ghost use Rattle.mon_store.specs.Opening.{named, IsStopOf, Gives, Answers, IsOutside, Rereads, AlikePair, Alike, Settled, stop_in, BothCount};
ghost use Rattle.mon_store.specs.OpeningCalls.{both_calls, opening_calls, OpensWith};

use crate::choice::{Choice, choose};
use crate::fold::fold;
use crate::stop::OpenStop;
use mon_disk::Disk;
use mon_journal::{Journal, JournalStop, Opened, create, open};
use mon_kv::Kv;
use mon_types::{Member, Side};
use std::alloc::Global;

/// The store's stop for a journal's: NotAStore names the disk too.
fn named(side: Side, stop: JournalStop) -> OpenStop
    ensures { result ≡ named side stop }
{
    match stop {
        JournalStop::DiskFault => OpenStop::DiskFault,
        JournalStop::NotAStore { at } => OpenStop::NotAStore { disk: side, at },
        JournalStop::OutOfMemory => OpenStop::OutOfMemory,
    }
}

/// What the disks of an opened store hold.
#[derive(Drop)]
pub(crate) struct LiveStore {
    pub(crate) side: Side,
    pub(crate) journal: Journal,
    pub(crate) kv: Kv,
}

/// The map of a live file, which is read from the disk of its side.
fn fold_live<D: Disk>(
    alloc: Global,
    a: &mut D,
    b: &mut D,
    side: Side,
    journal: &Journal,
) -> Result<Kv, JournalStop>
    requires holds { IfSome (D.state (of_live side a.old b.old)).content.seen
        (λ file. Holds journal.now (payloads_of file) file) }
    ensures map { IfSome (D.state (of_live side a.old b.old)).content.seen
        (λ file. JournalGives (λ kv. kv) result (map_of (payloads_of file))) }
    ensures size { IfOk result (λ kv. size_of kv ≤ most_size) }
    ensures disks { Rereads D.state side (journal_stop result) a.old b.old a.new b.new }
    ensures reach { OnOk result (journal.now.next_gate < (D.state (of_live side a.new b.new)).known) }
{
    match side {
        Side::A => fold(alloc, a, journal),
        Side::B => fold(alloc, b, journal),
    }
}

/// The map of a live file, if it is this member's.
fn restore<D: Disk>(
    alloc: Global,
    a: &mut D,
    b: &mut D,
    side: Side,
    journal: Journal,
    member: &Member,
) -> Result<LiveStore, OpenStop>
    requires holds { IfSome (D.state (of_live side a.old b.old)).content.seen
        (λ file. Holds journal (payloads_of file) file) }
    ensures answer { IfSome (D.state (of_live side a.old b.old)).content.seen
        (λ file. let live = Live side (held_by journal (payloads_of file)) in
        Gives (λ s. (live, s.kv)) result (taken (owner_of member.now) live)) }
    ensures side { IfOk result (λ s. s.side ≡ side) }
    ensures journal { IfOk result (λ s. s.journal ≡ journal) }
    ensures owner { IfOk result (λ s. owner_of s.journal.member ≡ owner_of member.now) }
    ensures map { IfOk result (λ s. IfSome (D.state (of_live side a.old b.old)).content.seen
        (λ file. map_of (payloads_of file) ≡ Ok s.kv)) }
    ensures size { IfOk result (λ s. size_of s.kv ≤ most_size) }
    ensures disks { Rereads D.state side (stop_in result) a.old b.old a.new b.new }
    ensures reach { OnOk result (journal.next_gate < (D.state (of_live side a.new b.new)).known) }
{
    let kv = match fold_live(alloc, a, b, side, &journal) {
        Ok(kv) => kv,
        Err(stop) => return Err(named(side, stop)),
    };
    let kept = journal.member;
    if kept.rank.get() != member.rank.get() || kept.monitors != member.monitors {
        return Err(OpenStop::Stranger {
            kept,
            asked: *member,
        });
    }
    Ok(LiveStore { side, journal, kv })
}

/// What two disks were found to hold.
#[derive(Drop)]
struct Both {
    a: Opened,
    b: Opened,
}

/// Opens disk A and then disk B.
fn open_both<D: Disk>(alloc: Global, a: &mut D, b: &mut D) -> Result<Both, OpenStop>
    ensures a { IfOk result (λ both. let seen = (D.state a.old).content.seen in
        Opens seen (D.state a.new).known (D.state a.new).content (on_disk seen (Ok both.a))) }
    ensures b { IfOk result (λ both. let seen = (D.state b.old).content.seen in
        Opens seen (D.state b.new).known (D.state b.new).content (on_disk seen (Ok both.b))) }
    ensures refused { IfErr result (λ e. IfSome (D.state a.old).content.seen
        (λ x. IfSome (D.state b.old).content.seen (λ y. IsStopOf e (found x y)))) }
    ensures a_time { OnOk result (LeavesOnly (D.state a.old).content (D.state a.new).content
        (AlikeFrom (D.state a.old).content)) }
    ensures b_time { OnOk result (LeavesOnly (D.state b.old).content (D.state b.new).content
        (AlikeFrom (D.state b.old).content)) }
    ensures any_time { (member : Member)
        → Meanwhile (D.state a.old).content (D.state b.old).content (D.state a.new).content (D.state b.new).content
        (AlikePair member (D.state a.old).content (D.state b.old).content false) }
    ensures a_visible { is_some (D.state a.new).content.seen ≡ is_some (D.state a.old).content.seen }
    ensures b_visible { is_some (D.state b.new).content.seen ≡ is_some (D.state b.old).content.seen }
    ensures few { IfSome (D.state a.old).content.seen
        (λ _. IfSome (D.state a.old).observed (λ s. IfSome (D.state a.new).observed (λ t. made_more 5 s t ≡ false))) }
    ensures made { OnOk result (IfSome (D.state a.old).content.seen
        (λ x. Makes (open_calls (content x)) None (D.state a.old).observed (D.state a.new).observed)) }
    ensures calls { OpensWith both_calls (D.state a.old).content.seen (D.state b.old).content.seen
        (D.state a.old).observed
        (D.state b.old).observed (D.state a.new).observed (D.state b.new).observed result }
    ensures counts { BothCount (stop_in result) (D.state a.old) (D.state b.old) (D.state a.new) (D.state b.new) }
{
    let on_a = match open(alloc, a) {
        Ok(opened) => opened,
        Err(stop) => return Err(named(Side::A, stop)),
    };
    match open(alloc, b) {
        Ok(on_b) => Ok(Both { a: on_a, b: on_b }),
        Err(stop) => Err(named(Side::B, stop)),
    }
}

/// Creates the store's first file.
fn create_on<D: Disk>(alloc: Global, a: &mut D, member: &Member) -> Result<LiveStore, OpenStop>
    ensures side { IfOk result (λ s. s.side ≡ Side.A) }
    ensures journal { IfOk result (λ s. s.journal ≡ created member.now 1 None) }
    ensures map { IfOk result (λ s. s.kv ≡ empty) }
    ensures kept { IfOk result (λ s. Keeps s.journal [] (D.state a.new).known (D.state a.new).content) }
    ensures outside { IfErr result IsOutside }
    ensures call { Called (create_calls (owner_of member.now) 1 None)
        (CreatedFrom (D.state a.old).content (created member.now 1 None) []) (stop_in result) (D.state a.old)
        (D.state a.new) }
    ensures settles { IfSome (D.state a.old).observed
        (λ s. IfSome (D.state a.new).observed
        (λ t. Made (D.state a.old).content (created member.now 1 None) [] (made_more 4 s t) (t.settles t.made))) }
{
    let journal = match create(alloc, a, *member, 1, None) {
        Ok(journal) => journal,
        Err(stop) => return Err(named(Side::A, stop)),
    };
    Ok(LiveStore {
        side: Side::A,
        journal,
        kv: Kv::empty(alloc),
    })
}

/// Opens two disks, or creates a store on them.
pub(crate) fn open_disks<D: Disk>(
    alloc: Global,
    a: &mut D,
    b: &mut D,
    member: &Member,
) -> Result<LiveStore, OpenStop>
    ensures sound { IfOk result (λ s. Sound s.journal s.kv (D.state (of_live s.side a.new b.new)).known
        (D.state (of_live s.side a.new b.new)).content (D.state (of_live (other_side s.side) a.new b.new)).content) }
    ensures owner { IfOk result (λ s. owner_of s.journal.member ≡ owner_of member.now) }
    ensures answer { IfSome (D.state a.old).content.seen
        (λ x. IfSome (D.state b.old).content.seen (λ y. Answers member.now x y result)) }
    ensures any_time { IsTrue (is_some (D.state a.old).content.seen) → IsTrue (is_some (D.state b.old).content.seen)
        → WhileOpening (D.state a.old).content (D.state b.old).content (D.state a.new).content (D.state b.new).content
        (Alike member.now (D.state a.old).content (D.state b.old).content) }
    ensures settles { IsTrue (is_some (D.state a.old).content.seen) → IsTrue (is_some (D.state b.old).content.seen)
        → IfSome (D.state a.old).observed (λ s. IfSome (D.state a.new).observed
        (λ t. IfSome (D.state b.new).observed
        (λ u. Settled member.now (D.state a.old).content (D.state b.old).content s t u))) }
    ensures a_visible { is_some (D.state a.new).content.seen ≡ is_some (D.state a.old).content.seen }
    ensures b_visible { is_some (D.state b.new).content.seen ≡ is_some (D.state b.old).content.seen }
    ensures calls { OpensWith (opening_calls (owner_of member.now)) (D.state a.old).content.seen
        (D.state b.old).content.seen (D.state a.old).observed (D.state b.old).observed (D.state a.new).observed
        (D.state b.new).observed result }
    ensures counts { BothCount (stop_in result) (D.state a.old) (D.state b.old) (D.state a.new) (D.state b.new) }
{
    let both = open_both(alloc, a, b)?;
    match choose(both.a, both.b)? {
        Choice::New => create_on(alloc, a, member),
        Choice::Live { side, journal } => restore(alloc, a, b, side, journal, member),
    }
}
