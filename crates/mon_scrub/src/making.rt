ghost use Rattle.std.specs.Prelude.{◌≡◌, ◌≤◌, ◌^◌, List, [], ◌∷◌, ◌++◌, Ok};
ghost use Rattle.mon_kv.specs.Chunks.{shared_of};
ghost use Rattle.mon_kv.specs.Readers.{entry_of, size_of, most_size};
ghost use Rattle.mon_store.specs.Checkpoint.{Entry, EntryFits};
ghost use Rattle.mon_scrub.specs.Parts.{parts_of, report_of};
ghost use Rattle.mon_scrub.specs.Tallies.{AllCounted, HaveRoom};

use crate::report::{Part, Report};
use crate::tally::Tallies;
use mon_bytes::OutOfMemory;
use mon_kv::{EntryRef, Kv, is_local};
use mon_types::Member;

/// Counts an entry, unless it is the monitor's own and not shared.
fn add_shared(tallies: &mut Tallies, entry: &EntryRef<'_>, last: u64)
    requires fits { EntryFits (entry_of entry.now) }
    requires few { HaveRoom tallies.now }
    requires last { last ≤ 2 ^ 62 }
    ensures { (es : List Entry) → AllCounted tallies.old es → AllCounted tallies.new (es ++ shared_of last (entry_of entry.now ∷ [])) }
{
    if !is_local(entry.prefix, entry.key, last) {
        tallies.add(entry);
    }
}

/// The parts of the entries that the map shares. Time: one walk over the map, and the digests.
fn parts_of(kv: &Kv) -> [Part; 3]
    requires { size_of kv.now ≤ most_size }
    ensures { result ≡ parts_of kv.now }
{
    let last = kv.last_committed();
    let mut tallies = Tallies::new();
    let mut next = kv.next_entry(&[], &[]);
    while let Some(entry) = next {
        add_shared(&mut tallies, &entry, last);
        next = kv.next_entry(entry.prefix, entry.key);
    }
    tallies.parts()
}

/// The report of a member's map. It copies no entry and takes no memory, so it never returns `OutOfMemory`.
pub fn scrub(kv: &Kv, member: Member) -> Result<Report, OutOfMemory>
    requires { size_of kv.now ≤ most_size }
    ensures { result ≡ Ok (report_of member kv.now) }
{
    Ok(Report {
        member,
        last: kv.last_committed(),
        marked: kv.in_sync(),
        parts: parts_of(kv),
    })
}
