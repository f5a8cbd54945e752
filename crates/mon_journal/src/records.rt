//! The records of a file, up to its first closed gate.

ghost use Rattle.std.specs.Prelude.{◌≡◌, ◌≤◌, ◌<◌, ◌+◌, ◌^◌, IfOk, IfErr, IfSome};
ghost use Rattle.mon_journal.specs.Pieces.{IsPieceOf, OnlyReads, left_at};
ghost use Rattle.mon_journal.specs.Steps.{stop_in};
ghost use Rattle.mon_journal.specs.Content.{records_at, header_of_file, is_closed, Finds, FoundIn, HeaderIs, HeadAt, IsOfForm};

use crate::journal::{HEADER, Journal, RECORD_HEAD};
use crate::pieces::Piece;
use crate::reading::header_at;
use crate::stop::JournalStop;
use byteorder::{ByteOrder, LittleEndian};
use mon_bytes::Cursor;
use mon_disk::Disk;

/// The length of the payload after the gate at a place, or `None` if the gate is closed.
pub fn length_at<D: Disk>(
    piece: &mut Piece,
    disk: &mut D,
    at: u64,
) -> Result<Option<u32>, JournalStop>
    requires on { IsPieceOf (D.state disk.old) piece.old }
    ensures disk { OnlyReads (stop_in result) (D.state disk.old) (D.state disk.new) }
    ensures on { IsPieceOf (D.state disk.new) piece.new }
    ensures end { piece.new.end ≡ piece.old.end }
    ensures head { IfSome (D.state disk.old).content.seen (λ file. HeadAt result (left_at at file)) }
    ensures gate { IfOk result (λ _. at < piece.old.end) }
    ensures within { IfOk result (λ found. IfSome found (λ n. at + 5 + n ≤ piece.old.end)) }
    ensures fits { IfOk result (λ found. IfSome found (λ n. at + 5 + n < 2 ^ 64)) }
{
    if at >= piece.end() {
        return Err(JournalStop::NotAStore { at });
    }
    piece.reach(disk, at, 1)?;
    if piece.get(at, 1)[0] != 1 {
        return Ok(None);
    }
    let left = piece.end() - at - 1;
    if left < 4 {
        return Err(JournalStop::NotAStore { at: at + 1 });
    }
    piece.reach(disk, at + 1, 4)?;
    let length = LittleEndian::read_u32(piece.get(at + 1, 4));
    if length as u64 > left - 4 {
        return Err(JournalStop::NotAStore { at: at + 5 });
    }
    Ok(Some(length))
}

/// The place of the first closed gate. Each record before it must be whole.
fn first_closed_gate<D: Disk>(piece: &mut Piece, disk: &mut D) -> Result<u64, JournalStop>
    requires on { IsPieceOf (D.state disk.old) piece.old }
    ensures disk { OnlyReads (stop_in result) (D.state disk.old) (D.state disk.new) }
    ensures on { IsPieceOf (D.state disk.new) piece.new }
    ensures end { piece.new.end ≡ piece.old.end }
    ensures records { IfSome (D.state disk.old).content.seen
        (λ file. Finds (λ gate payloads. (payloads, gate)) result (records_at (left_at 25 file))) }
    ensures within { IfOk result (λ gate. gate < piece.old.end) }
{
    let mut at = HEADER;
    loop {
        let Some(length) = length_at(piece, disk, at)? else {
            return Ok(at);
        };
        at += RECORD_HEAD + length as u64;
    }
}

/// Whether a file is closed, by its first bytes.
fn is_closed(head: &[u8]) -> bool
    ensures { result ≡ is_closed head.now }
{
    match head {
        [gate, _, ..] => *gate != 1,
        _ => true,
    }
}

/// The header of an open file, as a journal whose first closed gate is the one after it.
fn header_in(head: &[u8]) -> Result<Journal, JournalStop>
    ensures header { HeaderIs result (header_of_file head.now) }
    ensures form { IfErr result IsOfForm }
{
    let mut cursor = Cursor::new(head);
    cursor.take_u8()?;
    header_at(&mut cursor)
}

/// The journal of a file, read from its first byte on, or `None` if the file is closed.
pub fn held_on<D: Disk>(piece: &mut Piece, disk: &mut D) -> Result<Option<Journal>, JournalStop>
    requires on { IsPieceOf (D.state disk.old) piece.old }
    ensures disk { OnlyReads (stop_in result) (D.state disk.old) (D.state disk.new) }
    ensures known { (D.state disk.new).known ≡ (D.state disk.old).known }
    ensures held { IfSome (D.state disk.old).content.seen (FoundIn result) }
    ensures within { IfOk result (λ found. IfSome found (λ journal. journal.next_gate < piece.old.end)) }
{
    let count = piece.end().min(HEADER) as usize;
    piece.reach(disk, 0, count)?;
    let head = piece.get(0, count);
    if is_closed(head) {
        return Ok(None);
    }
    let journal = header_in(head)?;
    let next_gate = first_closed_gate(piece, disk)?;
    Ok(Some(Journal {
        member: journal.member,
        generation: journal.generation,
        next_gate,
        form: journal.form,
    }))
}
