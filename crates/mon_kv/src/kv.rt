//! The map of a monitor.

ghost use Rattle.std.specs.Prelude.{◌≡◌, ℕ, [], ◌≤◌, ◌^◌, OnOk, IfSome, IsTrue, Some};
ghost use Rattle.std.specs.FinMap.{get, insert};
ghost use Rattle.std.specs.Option.{option_copied, option_map};
ghost use Rattle.mon_bytes.specs.Texts.{is_name, is_prefix};
ghost use Rattle.mon_tx.specs.Map.{number_in, number_at, apply_op, apply};
ghost use Rattle.mon_tx.specs.Fields.{Gives};
ghost use Rattle.mon_tx.specs.Decode.{transaction_of, OpFits};
ghost use Rattle.mon_tx.specs.EncodedOp.{change, rest_of};
ghost use Rattle.mon_kv.specs.Tree.{first};
ghost use Rattle.mon_kv.specs.Readers.{entry_of, found_of, entries_after};
ghost use Rattle.mon_kv.specs.Readers.{size_of};
ghost use Rattle.mon_kv.specs.Applied.{applied};

use crate::areas::{Areas, erase, erase_prefix, erase_range, put, record_size};
use crate::entry_ref::EntryRef;
use crate::next::{Found, next};
use crate::tree::Tree;
use byteorder::{ByteOrder, LittleEndian};
use mon_bytes::{Bytes, OutOfMemory};
use mon_tx::{EncodedOp, EncodedOps, Op, Transaction, TxRefused};
use mon_types::{GREATEST, Version};
use std::alloc::Global;
use std::marker::Model;

/// A map from pairs of prefix and key to bytes: one ordered tree of keys per prefix. A look-up takes at most as many
/// steps as the two trees are high together.
#[derive(Drop)]
pub struct Kv {
    areas: Areas,
    size: u64,
    alloc: Global,
}

impl Model for Kv {
    ghost use Rattle.std.specs.Coded.{coded×, coded_list, coded_ℕ};
    ghost use Rattle.std.specs.FinMap.{code};
    ghost use Rattle.mon_tx.specs.Map.{Store};
    ghost use Rattle.std.specs.Prelude.{◌≡◌};
    ghost use Rattle.mon_kv.specs.Tree.{entries};
    ghost use Rattle.mon_kv.specs.Areas.{store, areas_size, IsWhole};

    ghost Value = { Store };

    ghost coded = { code (coded× (coded_list coded_ℕ) (coded_list coded_ℕ)) (coded_list coded_ℕ) };

    ghost view = { λ k. store k.areas };

    ghost invariant = { λ k. IsWhole k.areas × (k.size ≡ areas_size (entries k.areas)) };
}

/// The greatest size of a store's map, as `size` counts it.
pub const MOST_SIZE: u64 = 268435456;

/// A store's file is replaced by a new one only if it is longer than this, up to and with its first closed gate.
pub const LEAST_LENGTH: u64 = 1048576;

/// The number that the bytes hold: eight bytes, the lowest first, and at most 2^62. It is 0 otherwise.
#[tactic(auto, unfolding(mon_tx::specs::Map::number_in))]
pub fn number_of(bytes: Option<&[u8]>) -> u64
    ensures value { result ≡ number_in (option_copied bytes.entry) }
    ensures most { result ≤ 2 ^ 62 }
{
    match bytes {
        Some(bytes) if bytes.len() == 8 => {
            let n = LittleEndian::read_u64(bytes);
            if n <= GREATEST { n } else { 0 }
        }
        _ => 0,
    }
}

impl Kv {
    ghost use Rattle.std.specs.FinMap.{empty, entries};

    /// An empty map. It takes no memory.
    pub fn empty(alloc: Global) -> Kv
        ensures { result ≡ empty }
    {
        Kv {
            areas: Tree::Leaf,
            size: 0,
            alloc,
        }
    }

    /// The bytes at a key, or `None` if and only if the key isn't there.
    pub fn get(&self, prefix: &[u8], key: &[u8]) -> Option<&[u8]>
        ensures { option_copied result ≡ get self.now (prefix.now, key.now) }
    {
        match self.areas.get(prefix) {
            Some(records) => match records.get(key) {
                Some(value) => Some(value.as_slice()),
                None => None,
            },
            None => None,
        }
    }

    /// The number at a key: that of its eight bytes, the lowest first, if it is at most 2^62, and 0 otherwise.
    pub fn number(&self, prefix: &[u8], key: &[u8]) -> u64
        ensures value { result ≡ number_at self.now prefix.now key.now }
        ensures most { result ≤ 2 ^ 62 }
    {
        number_of(self.get(prefix, key))
    }

    /// The sum, over all keys, of the lengths of prefix, key and value and of 16. It takes no look-up.
    pub fn size(&self) -> u64
        ensures { result ≡ size_of self.now }
    {
        self.size
    }

    /// The first entry above the pair of prefix and key, in the order by prefix and then key. It is `None` if and
    /// only if there is none. Two empty slices are before every entry.
    pub fn next_entry(&self, prefix: &[u8], key: &[u8]) -> Option<EntryRef<'_>>
        ensures value { option_map entry_of result ≡ first (entries_after self.now (prefix.now, key.now)) }
        ensures form { IfSome result (λ e. IsTrue (is_prefix e.prefix.now) × IsTrue (is_name e.key.now)) }
        ensures start { entries_after self.now ([], []) ≡ entries self.now }
    {
        match self.next_found(prefix, key) {
            Some(found) => Some(EntryRef {
                prefix: found.prefix.as_slice(),
                key: found.key.as_slice(),
                value: found.value.as_slice(),
            }),
            None => None,
        }
    }

    /// The first entry above the pair of prefix and key, borrowed from the trees.
    pub(crate) fn next_found(&self, prefix: &[u8], key: &[u8]) -> Option<Found<'_>>
        ensures value { option_map found_of result ≡ first (entries_after self.now (prefix.now, key.now)) }
        ensures form { IfSome result (λ e. IsTrue (is_prefix e.prefix.now)) }
        ensures start { entries_after self.now ([], []) ≡ entries self.now }
    {
        next(&self.areas, prefix, key)
    }

    /// The allocator. The contract also states, for callers, that all entries are above the pair of two empty texts.
    pub(crate) fn allocator(&self) -> Global
        ensures start { entries_after self.now ([], []) ≡ entries self.now }
    {
        self.alloc
    }

    /// Puts the value of a key. After `OutOfMemory` the map is unspecified and must not be used.
    pub fn put(&mut self, prefix: &[u8], key: &[u8], value: &[u8]) -> Result<(), OutOfMemory>
        requires prefix { IsTrue (is_prefix prefix.now) }
        requires key { IsTrue (is_name key.now) }
        ensures { OnOk result (self.new ≡ insert self.old (prefix.now, key.now) value.now) }
    {
        let Some(grown) = self.size.checked_add(record_size(prefix, key, value)) else {
            return Err(OutOfMemory);
        };
        let value = Bytes::new(Vec::from_slice(self.alloc, value)?);
        let freed = put(&mut self.areas, self.alloc, prefix, key, value)?;
        self.size = grown - freed;
        Ok(())
    }

    fn erase(&mut self, prefix: &[u8], key: &[u8])
        requires prefix { IsTrue (is_prefix prefix.now) }
        requires key { IsTrue (is_name key.now) }
        ensures { self.new ≡ apply_op (Op.Erase prefix.now key.now) self.old }
    {
        self.size -= erase(&mut self.areas, prefix, key);
    }

    fn erase_prefix(&mut self, prefix: &[u8])
        ensures { self.new ≡ apply_op (Op.ErasePrefix prefix.now) self.old }
    {
        self.size -= erase_prefix(&mut self.areas, prefix);
    }

    fn erase_range(&mut self, prefix: &[u8], from: &Version, to: &Version)
        requires { IsTrue (is_prefix prefix.now) }
        ensures { self.new ≡ apply_op (Op.EraseRange prefix.now from.now to.now) self.old }
    {
        self.size -= erase_range(&mut self.areas, prefix, from.get(), to.get());
    }

    fn apply_op(&mut self, op: &Op) -> Result<(), OutOfMemory>
        ensures { OnOk result (self.new ≡ apply_op op.now self.old) }
    {
        match op {
            Op::Put { prefix, key, value } => {
                self.put(prefix.as_slice(), key.as_slice(), value.as_slice())?;
            }
            Op::Erase { prefix, key } => self.erase(prefix.as_slice(), key.as_slice()),
            Op::ErasePrefix { prefix } => self.erase_prefix(prefix.as_slice()),
            Op::EraseRange { prefix, from, to } => self.erase_range(prefix.as_slice(), from, to),
        }
        Ok(())
    }

    /// Makes the changes, in order. After `OutOfMemory` the map is unspecified and must not be used.
    pub fn apply(&mut self, tx: &Transaction) -> Result<(), OutOfMemory>
        ensures { OnOk result (self.new ≡ apply tx.now self.old) }
    {
        for op in tx.ops() {
            self.apply_op(op)?;
        }
        Ok(())
    }

    fn apply_encoded(&mut self, op: &EncodedOp<'_>) -> Result<(), OutOfMemory>
        requires { OpFits (change op.now) }
        ensures { OnOk result (self.new ≡ apply_op (change op.now) self.old) }
    {
        match op {
            EncodedOp::Put { prefix, key, value } => self.put(prefix, key, value)?,
            EncodedOp::Erase { prefix, key } => self.erase(prefix, key),
            EncodedOp::ErasePrefix { prefix } => self.erase_prefix(prefix),
            EncodedOp::EraseRange { prefix, from, to } => self.erase_range(prefix, from, to),
        }
        Ok(())
    }

    fn apply_each(&mut self, mut ops: EncodedOps<'_>) -> Result<(), TxRefused>
        ensures { Gives (λ _. self.new) result (applied self.old (rest_of ops.entry)) }
    {
        loop {
            match ops.next_op() {
                Ok(Some(op)) => self.apply_encoded(&op)?,
                Ok(None) => return Ok(()),
                Err(refused) => return Err(refused),
            }
        }
    }

    /// Makes the changes that a text encodes, in order, as they are read. It allocates only what the map keeps. An
    /// `Err` is the refusal of the bytes, or `OutOfMemory`; after it the map is unspecified and must not be used.
    pub fn apply_text(&mut self, text: &[u8]) -> Result<(), TxRefused>
        ensures { Gives (λ _. self.new) result (applied self.old (transaction_of text.now)) }
    {
        self.apply_each(EncodedOps::new(text)?)
    }
}
