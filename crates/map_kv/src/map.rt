ghost use Rattle.std.specs.Prelude.{◌≡◌, ℕ, ◌≤◌, ◌<◌, ◌+◌, ◌^◌, List, length, map, slice_get, IsTrue, IfOk, OnOk, OnErr, Some, string_bytes};
ghost use Rattle.std.specs.Option.{option_copied, option_map};
ghost use Rattle.std.specs.Map.{keys_of};
ghost use Rattle.std.specs.FinMap.{get, len, keys, entries, insert, remove};
ghost use Rattle.std.specs.Str.{is_utf8};
ghost use Rattle.mon_bytes.specs.Texts.{is_name};
ghost use Rattle.map_kv.specs.Map.{with_inc};
ghost use Rattle.map_kv.specs.Text.{map_text, MapFits, MapIsShort};
ghost use Rattle.map_kv.specs.Kept.{pairs, held, entry_size, IsKept, kept_map};

use crate::encode::put_name;
use crate::inc::KvInc;
use mon_bytes::{Name, Out, OutOfMemory, Text, write_count, write_text};
use mon_types::GREATEST;
use std::alloc::Global;
use std::collections::BTreeMap;
use std::collections::btree_map::Iter;
use std::marker::Model;
use std::str;

/// A map from names to texts, in ascending order of key.
#[derive(Drop)]
pub struct KvMap {
    alloc: Global,
    entries: BTreeMap<String, Text>,
    size: u64,
}

impl Model for KvMap {
    ghost use Rattle.std.specs.Coded.{coded_list, coded_ℕ};
    ghost use Rattle.std.specs.FinMap.{code, from_sorted};
    ghost use Rattle.map_kv.specs.Map.{Kv};
    ghost use Rattle.map_kv.specs.Kept.{IsKept, kept_map};

    ghost Value = { Kv };

    ghost coded = { code (coded_list coded_ℕ) (coded_list coded_ℕ) };

    ghost view = { λ m. kept_map m.entries.entries };

    ghost invariant = { λ m. IsKept m.entries.entries m.size };
}

/// How many bytes an entry takes in the map's text.
pub(crate) fn entry_size(key: &str, value: &Text) -> u64
    requires { IsTrue (is_name key.now) }
    ensures size { result ≡ entry_size (key.now, value.now) }
    ensures most { result < 2 ^ 63 + 2 ^ 10 }
    ensures text { IsTrue (is_utf8 value.now) }
{
    key.len() as u64 + value.as_slice().len() as u64 + 5
}

impl KvMap {
    ghost use Rattle.std.specs.FinMap.{empty};

    /// The empty map. It takes no memory.
    pub fn new(alloc: Global) -> KvMap
        ensures { result ≡ empty }
    {
        KvMap {
            alloc,
            entries: BTreeMap::new(alloc),
            size: 4,
        }
    }

    /// The map of entries in ascending order of key, whose text has `size` bytes. No key is searched for.
    pub(crate) fn from_sorted(
        alloc: Global,
        entries: Vec<(String, Text)>,
        size: u64,
    ) -> Result<KvMap, OutOfMemory>
        requires { IsKept entries.items size }
        ensures { IfOk result (λ map. map ≡ kept_map entries.items) }
    {
        Ok(KvMap {
            alloc,
            entries: BTreeMap::from_iter(alloc, entries)?,
            size,
        })
    }

    /// The value of the key, `None` if and only if the key isn't there.
    pub fn get(&self, key: &[u8]) -> Option<&[u8]>
        ensures { option_copied result ≡ get self.now key.now }
    {
        let entries = &self.entries;
        let Ok(key) = str::from_utf8(key) else {
            return None;
        };
        match entries.get(key) {
            Some(value) => Some(value.as_slice()),
            None => None,
        }
    }

    /// How many keys there are.
    pub fn len(&self) -> usize
        ensures { result ≡ len self.now }
    {
        self.entries.len()
    }

    /// The key at this place in ascending order, from 0. `None` if and only if `at` is at least `len`.
    pub fn key(&self, at: usize) -> Option<&[u8]>
        ensures { option_copied result ≡ slice_get (keys self.now) at }
    {
        match self.entries.keys().nth(at) {
            Some(key) => Some(key.as_bytes()),
            None => None,
        }
    }

    /// The entries in ascending order of key.
    pub fn iter(&self) -> Iter<'_, String, Text>
        ensures { pairs result ≡ entries self.now }
    {
        self.entries.iter()
    }

    /// An equal map.
    pub fn copy(&self) -> Result<KvMap, OutOfMemory>
        ensures { IfOk result (λ map. map ≡ self.now) }
    {
        let mut entries = Vec::with_capacity(self.alloc, self.entries.len())?;
        for (key, value) in &self.entries {
            let key = String::from_str(self.alloc, key.as_str())?;
            entries.push((key, value.copy(self.alloc)?))?;
        }
        KvMap::from_sorted(self.alloc, entries, self.size)
    }

    /// The length of the encoded map. It takes no memory.
    pub fn size(&self) -> u64
        ensures size { result ≡ length (map_text self.now) }
        ensures most { result ≤ 2 ^ 62 }
        ensures short { result < 2 ^ 32 → MapIsShort self.now }
    {
        self.size
    }

    /// How many bytes the entry of the key takes, 0 if it isn't there.
    fn held(&self, key: &str) -> u64
        requires { IsTrue (is_name key.now) }
        ensures { result ≡ held key.now (get self.now key.now) }
    {
        match self.entries.get(key) {
            Some(value) => entry_size(key, value),
            None => 0,
        }
    }

    /// What `size` would be after the incremental.
    #[tactic(auto, using(crate::proofs::Removed::length_removed))]
    pub fn size_after(&self, inc: &KvInc) -> u64
        ensures { result ≡ length (map_text (with_inc self.now inc.now)) }
    {
        match inc {
            KvInc::Set { key, value } => self.size_with(key, value),
            KvInc::Remove { key } => self.size() - self.held(key.as_str()),
        }
    }

    /// What `size` would be with this value at the key.
    pub(crate) fn size_with(&self, key: &Name, value: &Text) -> u64
        ensures size { result ≡ length (map_text (insert self.now key.now value.now)) }
        ensures name { IsTrue (is_name key.now) }
        ensures text { IsTrue (is_utf8 value.now) }
    {
        let key = key.as_str();
        self.size() + entry_size(key, value) - self.held(key)
    }

    /// Sets the value of a key. After `OutOfMemory` the map is unchanged.
    pub(crate) fn put(&mut self, key: Name, value: Text) -> Result<(), OutOfMemory>
        ensures ok { OnOk result (self.new ≡ insert self.old key value) }
        ensures err { OnErr result (self.new ≡ self.old) }
    {
        let size = self.size_with(&key, &value);
        if size > GREATEST {
            return Err(OutOfMemory);
        }
        self.entries.insert(key.into_string(), value)?;
        self.size = size;
        Ok(())
    }

    /// Removes a key, if it is there.
    fn take(&mut self, key: &str)
        requires { IsTrue (is_name key.now) }
        ensures { self.new ≡ remove self.old key.now }
    {
        if let Some(value) = self.entries.remove(key) {
            self.size -= entry_size(key, &value);
        }
    }

    /// Applies the incremental. After `OutOfMemory` the map is unchanged.
    pub fn apply(&mut self, inc: &KvInc) -> Result<(), OutOfMemory>
        ensures ok { OnOk result (self.new ≡ with_inc self.old inc.now) }
        ensures err { OnErr result (self.new ≡ self.old) }
    {
        match inc {
            KvInc::Set { key, value } => {
                let key = key.copy(self.alloc)?;
                let value = value.copy(self.alloc)?;
                self.put(key, value)
            }
            KvInc::Remove { key } => {
                self.take(key.as_str());
                Ok(())
            }
        }
    }

    /// The map's encoding. There must be fewer than 2 ^ 32 entries, each with a value of fewer than 2 ^ 32 bytes.
    pub fn encode(&self) -> Result<Vec<u8>, OutOfMemory>
        requires { MapIsShort self.now }
        ensures text { IfOk result (λ bytes. bytes.items ≡ map_text self.now) }
        ensures form { IfOk result (λ _. MapFits self.now) }
    {
        let mut out = Out::with_capacity(self.alloc, self.size as usize)?;
        write_count(&mut out, self.len() as u32)?;
        for (key, value) in &self.entries {
            put_name(&mut out, key.as_str())?;
            write_text(&mut out, value)?;
        }
        Ok(out.into_bytes())
    }
}
