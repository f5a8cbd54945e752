//! The payloads of a store's file, read one after the other.

ghost use Rattle.std.specs.Prelude.{◌≡◌, ◌≤◌, ◌<◌, ℕ, List, OnOk, IfOk, IfErr, IfSome, option_map};
ghost use Rattle.mon_journal.specs.Pieces.{IsPieceOf, OnlyReads, left_at};
ghost use Rattle.mon_journal.specs.Content.{payloads_of, Holds, IsUnread, NextIs};
ghost use Rattle.mon_journal.specs.Steps.{stop_in, IsOutside};

use crate::journal::{HEADER, Journal, RECORD_HEAD};
use crate::pieces::Piece;
use crate::records::length_at;
use crate::stop::JournalStop;
use mon_disk::Disk;
use std::alloc::Global;

/// The payloads of a file that are left to be read. It needs memory for at most 65,536 bytes of the file. Each payload
/// belongs to the caller.
#[derive(Drop)]
pub struct Reader {
    piece: Piece,
    gate: u64,
}

impl Reader {
    /// The payloads of a journal's file, from the first on. If the file is shorter than the journal says, `NotAStore`
    /// names the first closed gate.
    pub fn of<D: Disk>(
        alloc: Global,
        disk: &mut D,
        journal: &Journal,
    ) -> Result<Reader, JournalStop>
        requires holds { IfSome (D.state disk.old).content.seen (λ file. Holds journal.now (payloads_of file) file) }
        ensures disk { OnlyReads (stop_in result) (D.state disk.old) (D.state disk.new) }
        ensures on { IfOk result (λ reader. IsPieceOf (D.state disk.new) reader.piece) }
        ensures left { IfOk result (λ reader. IfSome (D.state disk.old).content.seen
            (λ file. IsUnread (payloads_of file) (left_at reader.gate file))) }
        ensures there { IfSome (D.state disk.old).content.seen (λ _. IfErr result IsOutside) }
        ensures reach { IfOk result (λ reader. journal.now.next_gate < reader.piece.end) }
    {
        let end = disk.len()?;
        if end <= journal.next_gate {
            return Err(JournalStop::NotAStore {
                at: journal.next_gate,
            });
        }
        Ok(Reader {
            piece: Piece::new(alloc, end),
            gate: HEADER,
        })
    }

    /// The next payload, or `None` after the last one. It needs memory for the payload. `NotAStore` is returned only if
    /// the file has changed since it was opened, and names the first field at fault.
    pub fn next_payload<D: Disk>(&mut self, disk: &mut D) -> Result<Option<Vec<u8>>, JournalStop>
        requires on { IsPieceOf (D.state disk.old) self.old.piece }
        ensures disk { OnlyReads (stop_in result) (D.state disk.old) (D.state disk.new) }
        ensures on { IsPieceOf (D.state disk.new) self.new.piece }
        ensures end { self.new.piece.end ≡ self.old.piece.end }
        ensures next { IfSome (D.state disk.old).content.seen (λ file. (payloads : List (List ℕ))
            → IsUnread payloads (left_at self.old.gate file)
            → NextIs (λ v. v.items) payloads (left_at self.new.gate file) result) }
        ensures less { IfOk result (λ found. IfSome found (λ _. self.old.gate < self.new.gate)) }
        ensures within { IfOk result (λ found. IfSome found (λ _. self.new.gate ≤ self.old.piece.end)) }
    {
        let Some(length) = length_at(&mut self.piece, disk, self.gate)? else {
            return Ok(None);
        };
        let payload = self
            .piece
            .bytes(disk, self.gate + RECORD_HEAD, length as usize)?;
        self.gate += RECORD_HEAD + length as u64;
        Ok(Some(payload))
    }
}
