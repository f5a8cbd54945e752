//! A member and its map, from an export.

ghost use Rattle.std.specs.Prelude.{◌≡◌, Ok, IfOk};
ghost use Rattle.std.specs.Str.{bytes_eq};
ghost use Rattle.mon_bytes.specs.Forms.{Reads, Gives as GivesMap};
ghost use Rattle.mon_tx.specs.Map.{Store};
ghost use Rattle.mon_journal.specs.Fields.{Owner, owner_at};
ghost use Rattle.mon_journal.specs.Written.{owner_of};
ghost use Rattle.store_tool.specs.Export.{export_word, export_text, word_at, form_of, formed, fields_of, judged, export_of, HasExport, Gives};

use crate::exporting::MOST_EXPORT;
use crate::refusal::ExportRefused;
use mon_bytes::{Cursor, MapRefused};
use mon_journal::{JournalStop, read_owner};
use mon_kv::{Kv, MOST_SIZE};
use mon_store::read_checkpoint;
use mon_types::Member;
use std::alloc::Global;

fn is_export_word(bytes: &[u8]) -> bool
    ensures { result ≡ bytes_eq bytes.now export_word }
{
    bytes == b"CEPHEXP1".as_slice()
}

#[tactic(auto, unfolding(crate::specs::Export::word_at))]
fn word_at<'a>(cursor: &mut Cursor<'a>) -> Result<&'a [u8], MapRefused>
    ensures { Reads (λ word. word.now) result cursor.new (word_at cursor.old) }
{
    let at = cursor.at();
    let word = cursor.take_bytes(8)?;
    if !is_export_word(word) {
        return Err(MapRefused::Form { at });
    }
    Ok(word)
}

/// The export's fault for a fault in its member.
fn form_of(stop: JournalStop) -> MapRefused
    ensures { result ≡ form_of stop }
{
    match stop {
        JournalStop::NotAStore { at } => MapRefused::Form { at: at as usize },
        JournalStop::DiskFault | JournalStop::OutOfMemory => MapRefused::OutOfMemory,
    }
}

fn member_at(cursor: &mut Cursor<'_>) -> Result<Member, MapRefused>
    ensures { Reads owner_of result cursor.new (formed (owner_at cursor.old)) }
{
    match read_owner(cursor) {
        Ok(member) => Ok(member),
        Err(stop) => Err(form_of(stop)),
    }
}

#[tactic(auto, unfolding(crate::specs::Export::fields_of))]
fn fields_of(alloc: Global, cursor: &mut Cursor<'_>) -> Result<(Member, Kv), MapRefused>
    ensures { GivesMap (λ x. (owner_of x.0, x.1)) result (fields_of cursor.old) }
{
    word_at(cursor)?;
    let member = member_at(cursor)?;
    let kv = read_checkpoint(alloc, cursor)?;
    Ok((member, kv))
}

#[tactic(auto, unfolding(crate::specs::Export::export_of))]
fn read(alloc: Global, bytes: &[u8]) -> Result<(Member, Kv), ExportRefused>
    ensures { Gives (λ x. (owner_of x.0, x.1)) result (export_of bytes.now) }
{
    if bytes.len() as u64 > MOST_EXPORT {
        return Err(ExportRefused::At { at: MOST_EXPORT });
    }
    let mut cursor = Cursor::new(bytes);
    let (member, kv) = fields_of(alloc, &mut cursor)?;
    if kv.size() > MOST_SIZE {
        return Err(ExportRefused::Full {
            would_be: kv.size(),
        });
    }
    Ok((member, kv))
}

/// The member and the map that an export holds. `At` names the first place of the first field at fault, and `Full` a map
/// that is too large for a store. Memory is taken for the entries that are there, whatever count the bytes claim.
pub fn read_export(alloc: Global, bytes: &[u8]) -> Result<(Member, Kv), ExportRefused>
    // If reading succeeds, the bytes are the export of the member and the map.
    ensures found { IfOk result (λ x. HasExport (owner_of x.0) x.1 × (bytes.now ≡ export_text (owner_of x.0) x.1)) }

    // An export is read, unless memory runs out.
    ensures only { (owner : Owner) (m : Store) → HasExport owner m → bytes.now ≡ export_text owner m
        → Gives {Y = Owner × Store} (λ x. (owner_of x.0, x.1)) result (Ok (owner, m)) }

    // Which fault is returned, and its place.
    ensures exact { Gives (λ x. (owner_of x.0, x.1)) result (export_of bytes.now) }
{
    read(alloc, bytes)
}
