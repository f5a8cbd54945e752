//! The map that the payloads of a file represent.

ghost use Rattle.std.specs.Prelude.{◌≡◌, ◌≤◌, ◌<◌, ◌+◌, length, Ok, IfOk, IfErr, OnOk, IfSome};
ghost use Rattle.mon_kv.specs.Readers.{size_of};
ghost use Rattle.mon_journal.specs.Content.{Gives, IsOfForm, Holds, payloads_of};
ghost use Rattle.mon_journal.specs.Pieces.{OnlyReads};
ghost use Rattle.mon_journal.specs.Steps.{stop_in};
ghost use Rattle.mon_store.specs.Checkpoint.{most_size};
ghost use Rattle.mon_store.specs.Payloads.{within, after, is_checkpoint, restored, begun, at_fault, folded, map_of};
ghost use Rattle.mon_store.specs.Decode.{checkpoint_of};

use crate::checkpoint::CHECKPOINT;
use crate::reading::read_checkpoint;
use mon_bytes::{Cursor, MapRefused};
use mon_disk::Disk;
use mon_journal::{FIRST_PAYLOAD, Journal, JournalStop, RECORD_HEAD, Reader};
use mon_kv::{Kv, MOST_SIZE};
use mon_tx::TxRefused;
use std::alloc::Global;

/// The map, if it isn't larger than a store may be.
fn within(kv: Kv, at: u64) -> Result<Kv, JournalStop>
    ensures map { Gives (λ kv. kv) result (at_fault at (within kv)) }
    ensures size { IfOk result (λ kv. size_of kv ≤ most_size) }
    ensures form { IfErr result IsOfForm }
{
    if kv.size() > MOST_SIZE {
        return Err(JournalStop::NotAStore { at });
    }
    Ok(kv)
}

#[tactic(auto, unfolding(crate::specs::Payloads::after))]
fn after(mut kv: Kv, payload: &[u8], at: u64) -> Result<Kv, JournalStop>
    ensures map { Gives (λ kv. kv) result (at_fault at (after payload.now kv)) }
    ensures size { IfOk result (λ kv. size_of kv ≤ most_size) }
    ensures form { IfErr result IsOfForm }
{
    match kv.apply_text(payload) {
        Ok(()) => within(kv, at),
        Err(TxRefused::OutOfMemory) => Err(JournalStop::OutOfMemory),
        Err(_) => Err(JournalStop::NotAStore { at }),
    }
}

fn restored(alloc: Global, payload: &[u8], at: u64) -> Result<Kv, JournalStop>
    ensures size { IfOk result (λ kv. size_of kv ≤ most_size) }
    ensures form { IfErr result IsOfForm }
    ensures map { Gives (λ kv. kv) result
        (at_fault at (restored (checkpoint_of (record { at = 0; rest = payload.now })))) }
{
    let mut cursor = Cursor::new(payload);
    match read_checkpoint(alloc, &mut cursor) {
        Ok(kv) => within(kv, at),
        Err(MapRefused::OutOfMemory) => Err(JournalStop::OutOfMemory),
        Err(MapRefused::Form { .. }) => Err(JournalStop::NotAStore { at }),
    }
}

fn is_checkpoint(payload: &[u8]) -> bool
    ensures { result ≡ is_checkpoint payload.now }
{
    match payload {
        [kind, ..] => *kind == CHECKPOINT,
        _ => false,
    }
}

#[tactic(auto, unfolding(crate::specs::Payloads::begun))]
fn begun(alloc: Global, payload: &[u8], at: u64) -> Result<Kv, JournalStop>
    ensures map { Gives (λ kv. kv) result (at_fault at (begun payload.now)) }
    ensures size { IfOk result (λ kv. size_of kv ≤ most_size) }
    ensures form { IfErr result IsOfForm }
{
    if is_checkpoint(payload) {
        return restored(alloc, payload, at);
    }
    after(Kv::empty(alloc), payload, at)
}

/// The place of what follows a payload: after a gate and a length.
fn after_payload(at: u64, payload: &[u8]) -> Result<u64, JournalStop>
    ensures place { Gives (λ n. n) result (Ok (at + 5 + length payload.now)) }
    ensures form { IfErr result IsOfForm }
{
    at.checked_add(RECORD_HEAD)
        .and_then(|at| at.checked_add(payload.len() as u64))
        .ok_or(JournalStop::OutOfMemory)
}

/// The map that the payloads of a journal's file represent. They are read from its disk one after the other.
/// `NotAStore` names the first byte of the first payload at fault. Beside the map it needs memory for one payload, and
/// for at most 65,536 bytes of the file.
pub fn fold<D: Disk>(alloc: Global, disk: &mut D, journal: &Journal) -> Result<Kv, JournalStop>
    requires holds { IfSome (D.state disk.old).content.seen (λ file. Holds journal.now (payloads_of file) file) }
    ensures map { IfSome (D.state disk.old).content.seen
        (λ file. Gives (λ kv. kv) result (map_of (payloads_of file))) }
    ensures size { IfOk result (λ kv. size_of kv ≤ most_size) }
    ensures disk { OnlyReads (stop_in result) (D.state disk.old) (D.state disk.new) }
    ensures reach { OnOk result (journal.now.next_gate < (D.state disk.new).known) }
{
    let mut reader = Reader::of(alloc, disk, journal)?;
    let Some(first) = reader.next_payload(disk)? else {
        return Ok(Kv::empty(alloc));
    };
    let mut at = after_payload(FIRST_PAYLOAD, &first)?;
    let mut kv = begun(alloc, &first, FIRST_PAYLOAD)?;
    drop(first);
    while let Some(payload) = reader.next_payload(disk)? {
        kv = after(kv, &payload, at)?;
        at = after_payload(at, &payload)?;
    }
    Ok(kv)
}
