//! The shared entries under each prefix, counted one after the other.

ghost use Rattle.std.specs.Prelude.{◌≡◌, ℕ, [], ◌∷◌, ◌++◌, List};
ghost use Rattle.mon_kv.specs.Readers.{entry_of};
ghost use Rattle.mon_store.specs.Checkpoint.{Entry, EntryFits, entry_text};
ghost use Rattle.mon_scrub.specs.Parts.{part_of, parts_of_entries};
ghost use Rattle.mon_scrub.specs.Tallies.{Counted, AllCounted, HasRoom, HaveRoom};
ghost use Rattle.sha2.specs.Hashers.{Holds256};

use crate::report::Part;
use byteorder::{ByteOrder, LittleEndian};
use mon_kv::EntryRef;
use sha2::{Digest, Sha256};

/// A number of entries, and the hash of their texts so far.
#[derive(Drop)]
pub(crate) struct Tally {
    keys: u32,
    hasher: Sha256,
}

/// Adds an entry's text to the message that is hashed.
fn hash_entry(hasher: &mut Sha256, entry: &EntryRef<'_>)
    requires { EntryFits (entry_of entry.now) }
    ensures { (m : List ℕ) → Holds256 hasher.old m → Holds256 hasher.new (m ++ entry_text (entry_of entry.now)) }
{
    hasher.update(&[entry.prefix.len() as u8]);
    hasher.update(entry.prefix);
    hasher.update(&[entry.key.len() as u8]);
    hasher.update(entry.key);
    let mut len = [0; 4];
    LittleEndian::write_u32(&mut len, entry.value.len() as u32);
    hasher.update(&len);
    hasher.update(entry.value);
}

impl Tally {
    pub(crate) fn new() -> Tally
        ensures { Counted result [] }
    {
        Tally {
            keys: 0,
            hasher: Sha256::new(),
        }
    }

    fn add(&mut self, entry: &EntryRef<'_>)
        requires fits { EntryFits (entry_of entry.now) }
        requires few { HasRoom self.now }
        ensures { (es : List Entry) → Counted self.old es → Counted self.new (es ++ entry_of entry.now ∷ []) }
    {
        self.keys += 1;
        hash_entry(&mut self.hasher, entry);
    }

    fn part(self) -> Part
        ensures { (es : List Entry) → Counted self es → result ≡ part_of es }
    {
        Part {
            keys: self.keys,
            digest: self.hasher.finalize(),
        }
    }
}

/// A tally for each prefix.
#[derive(Drop)]
pub(crate) struct Tallies {
    kv: Tally,
    logm: Tally,
    paxos: Tally,
}

impl Tallies {
    /// Tallies of no entries.
    pub(crate) fn new() -> Tallies
        ensures { AllCounted result [] }
    {
        Tallies {
            kv: Tally::new(),
            logm: Tally::new(),
            paxos: Tally::new(),
        }
    }

    /// Counts an entry under its prefix. An entry under another prefix is ignored.
    pub(crate) fn add(&mut self, entry: &EntryRef<'_>)
        requires fits { EntryFits (entry_of entry.now) }
        requires few { HaveRoom self.now }
        ensures { (es : List Entry) → AllCounted self.old es → AllCounted self.new (es ++ entry_of entry.now ∷ []) }
    {
        if entry.prefix == b"kv".as_slice() {
            self.kv.add(entry);
        } else if entry.prefix == b"logm".as_slice() {
            self.logm.add(entry);
        } else if entry.prefix == b"paxos".as_slice() {
            self.paxos.add(entry);
        }
    }

    /// The parts of the counted entries, for `kv`, `logm` and `paxos`.
    pub(crate) fn parts(self) -> [Part; 3]
        ensures { (es : List Entry) → AllCounted self es → result ≡ parts_of_entries es }
    {
        [self.kv.part(), self.logm.part(), self.paxos.part()]
    }
}
