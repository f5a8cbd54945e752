//! The lists of messages, read from left to right. Nothing is taken for items that a text only claims to have.

ghost use Rattle.std.specs.Prelude.{◌≡◌, ℕ};
ghost use Rattle.mon_wire.specs.Message.Format.{Reads, items, list, some};

use crate::fields::{read_blob, read_value};
use crate::read_parts::read_entry;
use mon_bytes::{Bytes, Cursor, Entry, Items};
use mon_tx::Transaction;
use mon_wire::{MsgKind, MsgRefused};
use std::alloc::Global;

/// A type of the items that a message's list can hold.
pub(crate) trait Listed: Drop + Sized {
    ghost use Rattle.mon_wire.specs.Message.Format.{Format};

    /// How an item is encoded and decoded.
    ghost format: { Format Self };

    /// Reads an item from the front of the cursor.
    fn read(alloc: Global, cursor: &mut Cursor<'_>) -> Result<Self, MsgRefused>
        ensures { Reads (λ x. x) result cursor.new (format.read cursor.old) };
}

impl Listed for Transaction {
    ghost use Rattle.mon_wire.specs.Message.Fields.{value};

    ghost format = { value };

    fn read(alloc: Global, cursor: &mut Cursor<'_>) -> Result<Transaction, MsgRefused> {
        read_value(alloc, cursor)
    }
}

impl Listed for Entry {
    ghost use Rattle.mon_wire.specs.Message.Parts.{entry};

    ghost format = { entry };

    fn read(alloc: Global, cursor: &mut Cursor<'_>) -> Result<Entry, MsgRefused> {
        read_entry(alloc, cursor)
    }
}

impl Listed for Bytes {
    ghost use Rattle.mon_wire.specs.Message.Fields.{blob};

    ghost format = { blob };

    fn read(alloc: Global, cursor: &mut Cursor<'_>) -> Result<Bytes, MsgRefused> {
        read_blob(alloc, cursor)
    }
}

fn read_items<T: Listed>(
    alloc: Global,
    count: u16,
    cursor: &mut Cursor<'_>,
) -> Result<Items<T>, MsgRefused>
    ensures { Reads (λ x. x) result cursor.new (items T.format.read count cursor.old) }
{
    let mut read = Items::new(alloc);
    for _ in 0..count {
        let item = T::read(alloc, cursor)?;
        read.push(item)?;
    }
    Ok(read)
}

/// Reads a list: its count and its items.
pub(crate) fn read_list<T: Listed>(
    alloc: Global,
    cursor: &mut Cursor<'_>,
) -> Result<Items<T>, MsgRefused>
    ensures { Reads (λ x. x) result cursor.new ((list T.format).read cursor.old) }
{
    let count = cursor.take_u16()?;
    read_items(alloc, count, cursor)
}

/// Reads a list that isn't empty: its count and its items.
pub(crate) fn read_some<T: Listed>(
    alloc: Global,
    cursor: &mut Cursor<'_>,
) -> Result<Items<T>, MsgRefused>
    ensures { Reads (λ x. x) result cursor.new ((some T.format).read cursor.old) }
{
    let at = cursor.at();
    let count = cursor.take_u16()?;
    if count == 0 {
        return Err(MsgRefused::At {
            at,
            kind: MsgKind::Value,
        });
    }
    read_items(alloc, count, cursor)
}
