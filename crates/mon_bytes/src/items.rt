ghost use Rattle.std.specs.Prelude.{◌≡◌, ◌==◌, [], ◌∷◌, ◌++◌, length, IfOk, OnOk, OnErr};

use crate::entry::Entry;
use crate::memory::OutOfMemory;
use crate::texts::Bytes;
use std::alloc::Global;
use std::marker::Model;

/// A type whose values can be copied, if there is memory for the copy.
pub trait TryCopy: Drop + Sized {
    /// An equal value.
    fn try_copy(&self, alloc: Global) -> Result<Self, OutOfMemory>
        ensures { IfOk result (λ copied. copied ≡ self.now) };
}

impl TryCopy for Bytes {
    fn try_copy(&self, alloc: Global) -> Result<Bytes, OutOfMemory> {
        self.copy(alloc)
    }
}

impl TryCopy for Entry {
    fn try_copy(&self, alloc: Global) -> Result<Entry, OutOfMemory> {
        self.copy(alloc)
    }
}

/// Items in order. Contracts see their list.
#[derive(Drop)]
pub struct Items<T: Drop> {
    items: Vec<T>,
}

impl<T: Drop> Model for Items<T> {
    ghost use Rattle.std.specs.Prelude.{List};

    ghost Value = { List T };

    ghost view = { λ l. l.items.items };
}

impl<T: Drop> Items<T> {
    /// No items. It takes no memory.
    pub fn new(alloc: Global) -> Items<T>
        ensures { result ≡ [] }
    {
        Items {
            items: Vec::new(alloc),
        }
    }

    /// These items. It takes no memory.
    pub fn from_vec(items: Vec<T>) -> Items<T>
        ensures { result ≡ items.items }
    {
        Items { items }
    }

    /// Appends one. After an `Err` the list is unchanged.
    pub fn push(&mut self, item: T) -> Result<(), OutOfMemory>
        ensures ok { OnOk result (self.new ≡ self.old ++ item ∷ []) }
        ensures err { OnErr result (self.new ≡ self.old) }
    {
        self.items.push(item)?;
        Ok(())
    }

    /// How many there are.
    pub fn len(&self) -> usize
        ensures { result ≡ length self.now }
    {
        self.items.len()
    }

    /// Whether there are none.
    pub fn is_empty(&self) -> bool
        ensures { result ≡ (length self.now == 0) }
    {
        self.items.is_empty()
    }

    /// The items, in order.
    pub fn as_slice(&self) -> &[T]
        ensures { result.now ≡ self.now }
    {
        self.items.as_slice()
    }

    /// The items, in order, taken out without memory.
    pub fn into_vec(self) -> Vec<T>
        ensures { result.items ≡ self }
    {
        self.items
    }
}

impl<T: TryCopy> Items<T> {
    /// Equal items, in the same order.
    pub fn copy(&self, alloc: Global) -> Result<Items<T>, OutOfMemory>
        ensures { IfOk result (λ items. items ≡ self.now) }
    {
        let mut items = Vec::new(alloc);
        for item in &self.items {
            items.push(item.try_copy(alloc)?)?;
        }
        Ok(Items { items })
    }
}
