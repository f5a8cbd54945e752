ghost use Rattle.std.specs.Prelude.{◌≡◌, IfOk, OnOk};
ghost use Rattle.std.specs.List.{AllByRecursion};
ghost use Rattle.std.specs.Cmp.Lexicographic.{slice_cmp};
ghost use Rattle.std.specs.Ordering.{nat_cmp};
ghost use Rattle.std.specs.declared.cmp.Ordering.TheVariants.{Less};
ghost use Rattle.std.specs.FinMap.{entries, insert};

use crate::map::{KvMap, entry_size};
use mon_bytes::{Name, OutOfMemory, Text};
use mon_types::GREATEST;
use std::alloc::Global;
use std::marker::Model;

/// Entries in ascending order of key, of which a map is made at once.
#[derive(Drop)]
pub(crate) struct Ascending {
    alloc: Global,
    entries: Vec<(String, Text)>,
    size: u64,
}

impl Model for Ascending {
    ghost use Rattle.std.specs.Coded.{coded_list, coded_ℕ};
    ghost use Rattle.std.specs.FinMap.{code};
    ghost use Rattle.map_kv.specs.Map.{Kv};
    ghost use Rattle.map_kv.specs.Kept.{IsKept, kept_map};

    ghost Value = { Kv };

    ghost coded = { code (coded_list coded_ℕ) (coded_list coded_ℕ) };

    ghost view = { λ m. kept_map m.entries.items };

    ghost invariant = { λ m. IsKept m.entries.items m.size };
}

impl Ascending {
    ghost use Rattle.std.specs.FinMap.{empty};

    /// No entries. It takes no memory.
    pub(crate) fn new(alloc: Global) -> Ascending
        ensures { result ≡ empty }
    {
        Ascending {
            alloc,
            entries: Vec::new(alloc),
            size: 4,
        }
    }

    /// Appends an entry whose key is above all others.
    pub(crate) fn push(&mut self, key: Name, value: Text) -> Result<(), OutOfMemory>
        requires { AllByRecursion (λ e. slice_cmp nat_cmp e.0 key ≡ Less) (entries self.old) }
        ensures { OnOk result (self.new ≡ insert self.old key value) }
    {
        let key = key.into_string();
        let size = self.size + entry_size(&key, &value);
        if size > GREATEST {
            return Err(OutOfMemory);
        }
        self.entries.push((key, value))?;
        self.size = size;
        Ok(())
    }

    /// The map of the entries.
    pub(crate) fn into_map(self) -> Result<KvMap, OutOfMemory>
        ensures { IfOk result (λ map. map ≡ self) }
    {
        KvMap::from_sorted(self.alloc, self.entries, self.size)
    }
}
