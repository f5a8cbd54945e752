//! Changes of named keys, appended to a transaction.

ghost use Rattle.std.specs.Prelude.{◌≡◌, ℕ, ◌<◌, ◌≤◌, ◌^◌, [], ◌∷◌, ◌++◌, take, IfOk, OnOk, OnErr};
ghost use Rattle.mon_tx.specs.Keys.{area_text};
ghost use Rattle.mon_tx.specs.Map.{number_bytes};
ghost use Rattle.mon_tx.specs.Puts.{put, put_number, erase};

use crate::key::{Area, Key};
use crate::op::Op;
use crate::transaction::Transaction;
use mon_bytes::{Bytes, Out, OutOfMemory};
use mon_types::Version;
use std::alloc::Global;

#[tactic(auto, unfolding(crate::specs::Map::number_bytes))]
fn number_bytes(alloc: Global, n: u64) -> Result<Bytes, OutOfMemory>
    ensures { IfOk result (λ bytes. bytes ≡ number_bytes n) }
{
    let mut out = Out::new(alloc);
    out.put_u64(n)?;
    Ok(Bytes::new(out.into_bytes()))
}

impl Transaction {
    /// Appends a put of a key's value. After an `Err` the transaction is unchanged.
    pub fn put(&mut self, area: Area, key: Key, value: Bytes) -> Result<(), OutOfMemory>
        ensures ok { OnOk result (self.new ≡ self.old ++ put area key value ∷ []) }
        ensures err { OnErr result (self.new ≡ self.old) }
    {
        let alloc = self.allocator();
        let prefix = area.prefix(alloc)?;
        let key = key.name(alloc)?;
        self.push(Op::Put { prefix, key, value })
    }

    /// Appends a put of a number, in eight bytes, the lowest first. A number above 2^62 is put too, but readers of the
    /// key return 0 for it. After an `Err` the transaction is unchanged.
    pub fn put_number(&mut self, area: Area, key: Key, n: u64) -> Result<(), OutOfMemory>
        ensures ok { OnOk result (self.new ≡ self.old ++ put_number area key n ∷ []) }
        ensures err { OnErr result (self.new ≡ self.old) }
    {
        let value = number_bytes(self.allocator(), n)?;
        self.put(area, key, value)
    }

    /// Appends an erasure of a key. After an `Err` the transaction is unchanged.
    pub fn erase(&mut self, area: Area, key: Key) -> Result<(), OutOfMemory>
        ensures ok { OnOk result (self.new ≡ self.old ++ erase area key ∷ []) }
        ensures err { OnErr result (self.new ≡ self.old) }
    {
        let alloc = self.allocator();
        let prefix = area.prefix(alloc)?;
        let key = key.name(alloc)?;
        self.push(Op::Erase { prefix, key })
    }

    /// Appends an erasure of an area's versions from `from` up to but not including `to`, which has to be above `from`
    /// and at most 2^62. After an `Err` the transaction is unchanged.
    pub fn erase_range(&mut self, area: Area, from: u64, to: u64) -> Result<(), OutOfMemory>
        requires upward { from < to }
        requires most { to ≤ 2 ^ 62 }
        ensures ok { OnOk result (self.new ≡ self.old ++ Op.EraseRange (area_text area) from to ∷ []) }
        ensures err { OnErr result (self.new ≡ self.old) }
    {
        let prefix = area.prefix(self.allocator())?;
        self.push(Op::EraseRange {
            prefix,
            from: Version::known(from),
            to: Version::known(to),
        })
    }

    /// Appends all changes of another transaction, in order. After an `Err` some of the first ones may be there.
    pub fn append(&mut self, changes: &Transaction) -> Result<(), OutOfMemory>
        ensures ok { OnOk result (self.new ≡ self.old ++ changes.now) }
        ensures err { OnErr result ((n : ℕ) × (self.new ≡ self.old ++ take n changes.now)) }
    {
        let alloc = self.allocator();
        for op in changes.ops() {
            self.push(op.copy(alloc)?)?;
        }
        Ok(())
    }
}
