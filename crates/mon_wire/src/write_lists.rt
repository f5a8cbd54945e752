//! The lists and tables of messages, encoded.

ghost use Rattle.std.specs.Prelude.{◌≡◌, ℕ, ◌≤◌, ◌<◌, ◌^◌, ◌++◌, length, take, OnOk};
ghost use Rattle.std.specs.List.{flat_map, AllByRecursion};
ghost use Rattle.mon_bytes.specs.Forms.{u32_bytes};
ghost use Rattle.mon_tx.specs.Decode.{HasText};
ghost use Rattle.mon_wire.specs.Message.Format.{list};
ghost use Rattle.mon_wire.specs.Message.Fields.{value, blob};
ghost use Rattle.mon_wire.specs.Message.Parts.{optional, entry};
ghost use Rattle.mon_wire.specs.Message.Scores.{row, table};

use crate::score_table::ScoreTable;
use crate::write_fields::{write_bytes, write_number, write_u16, write_value};
use election_rules::Row;
use mon_bytes::{Bytes, Entry, Out, OutOfMemory, write_count};
use mon_tx::Transaction;
use mon_types::Rank;

/// The most items of a message's list.
pub const MOST_ITEMS: usize = 65_535;

fn write_entry(out: &mut Out, held: &Entry) -> Result<(), OutOfMemory>
    requires { length held.now.value < 2 ^ 32 }
    ensures { OnOk result (out.new ≡ out.old ++ entry.text held.now) }
{
    out.put_word(held.prefix.as_slice())?;
    out.put_word(held.key.as_slice())?;
    write_bytes(out, held.value.as_slice())
}

pub(crate) fn write_values(out: &mut Out, values: &[Transaction]) -> Result<(), OutOfMemory>
    requires count { length values.now < 2 ^ 16 }
    requires each { AllByRecursion HasText values.now }
    ensures { OnOk result (out.new ≡ out.old ++ (list value).text values.now) }
{
    write_u16(out, values.len() as u16)?;
    for tx in values {
        write_value(out, tx)?;
    }
    Ok(())
}

pub(crate) fn write_entries(out: &mut Out, entries: &[Entry]) -> Result<(), OutOfMemory>
    requires count { length entries.now < 2 ^ 16 }
    requires each { AllByRecursion (entry.Form) entries.now }
    ensures { OnOk result (out.new ≡ out.old ++ (list entry).text entries.now) }
{
    write_u16(out, entries.len() as u16)?;
    for held in entries {
        write_entry(out, held)?;
    }
    Ok(())
}

pub(crate) fn write_blobs(out: &mut Out, blobs: &[Bytes]) -> Result<(), OutOfMemory>
    requires count { length blobs.now < 2 ^ 16 }
    requires each { AllByRecursion (blob.Form) blobs.now }
    ensures { OnOk result (out.new ≡ out.old ++ (list blob).text blobs.now) }
{
    write_u16(out, blobs.len() as u16)?;
    for bytes in blobs {
        write_bytes(out, bytes.as_slice())?;
    }
    Ok(())
}

fn write_scores(out: &mut Out, scores: &[u32]) -> Result<(), OutOfMemory>
    ensures { OnOk result (out.new ≡ out.old ++ flat_map u32_bytes scores.now) }
{
    for score in scores {
        write_count(out, *score)?;
    }
    Ok(())
}

fn write_row(out: &mut Out, n: u8, told: &Row) -> Result<(), OutOfMemory>
    requires { n ≤ 15 }
    ensures { OnOk result (out.new ≡ out.old ++ (row n).text told.now) }
{
    write_number(out, told.boot)?;
    write_number(out, told.count)?;
    let scores = &told.scores[..usize::from(n)];
    write_scores(out, scores)
}

fn write_rows(out: &mut Out, n: u8, rows: &[Row]) -> Result<(), OutOfMemory>
    requires { n ≤ 15 }
    ensures { OnOk result (out.new ≡ out.old ++ flat_map (row n).text rows.now) }
{
    for told in rows {
        write_row(out, n, told)?;
    }
    Ok(())
}

pub(crate) fn write_table(
    out: &mut Out,
    n: u8,
    own: Rank,
    told: &Option<ScoreTable>,
) -> Result<(), OutOfMemory>
    requires { n ≤ 15 }
    ensures { OnOk result (out.new ≡ out.old ++ (optional (table n own)).text told.now) }
{
    match told {
        None => out.put_u8(0),
        Some(table) => {
            out.put_u8(1)?;
            let rows = &table.scores().rows[..usize::from(n)];
            write_rows(out, n, rows)
        }
    }
}
