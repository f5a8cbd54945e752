//! A file on a disk, read a piece at a time.

ghost use Rattle.std.specs.Prelude.{◌≡◌, ◌≤◌, ◌+◌, ◌-◌, [], true, length, take, drop, OnOk, IfOk, IfErr, IfSome};
ghost use Rattle.mon_journal.specs.Pieces.{IsPieceOf, OnlyReads};
ghost use Rattle.mon_journal.specs.Steps.{stop_in, IsOutside};

use crate::stop::JournalStop;
use mon_bytes::OutOfMemory;
use mon_disk::Disk;
use std::alloc::Global;
use std::marker::Model;

/// How many bytes are read at once, unless more are asked for.
const MOST_READ: usize = 65536;

fn zeros(alloc: Global, len: usize) -> Result<Vec<u8>, OutOfMemory>
    ensures { IfOk result (λ bytes. length bytes.items ≡ len) }
{
    Ok(vec![in alloc; 0; len]?)
}

fn copied(alloc: Global, bytes: &[u8]) -> Result<Vec<u8>, OutOfMemory>
    ensures { IfOk result (λ copy. copy.items ≡ bytes.now) }
{
    let mut copy = Vec::with_capacity(alloc, bytes.len())?;
    copy.extend_from_slice(bytes)?;
    Ok(copy)
}

/// Reads the bytes at a place.
fn part<D: Disk>(alloc: Global, disk: &mut D, at: u64, count: usize) -> Result<Vec<u8>, JournalStop>
    requires within { at + count ≤ (D.state disk.old).known }
    ensures disk { OnlyReads (stop_in result) (D.state disk.old) (D.state disk.new) }
    ensures known { (D.state disk.new).known ≡ (D.state disk.old).known }
    ensures length { IfOk result (λ bytes. length bytes.items ≡ count) }
    ensures bytes { IfOk result (λ bytes. IfSome (D.state disk.old).content.seen
        (λ file. bytes.items ≡ take count (drop at file))) }
    ensures outside { IfErr result IsOutside }
{
    let mut bytes = zeros(alloc, count)?;
    disk.read(at, &mut bytes)?;
    Ok(bytes)
}

/// The piece of a file that was read last, and the file's length.
#[derive(Drop)]
pub struct Piece {
    alloc: Global,
    end: u64,
    at: u64,
    bytes: Vec<u8>,
}

impl Model for Piece {
    ghost use Rattle.mon_journal.specs.Pieces.{PieceState};

    ghost Value = { PieceState };

    ghost view = { λ p. record { end = p.end; at = p.at; bytes = p.bytes.items } };
}

impl Piece {
    /// An empty piece of a file of that length. It needs no memory.
    pub fn new(alloc: Global, end: u64) -> Piece
        ensures { result ≡ record { end = end; at = 0; bytes = [] } }
    {
        Piece {
            alloc,
            end,
            at: 0,
            bytes: Vec::new(alloc),
        }
    }

    /// The file's length.
    pub fn end(&self) -> u64
        ensures { result ≡ self.now.end }
    {
        self.end
    }

    /// Whether the piece has these bytes of the file.
    fn has(&self, at: u64, count: usize) -> bool
        ensures { result ≡ true → (self.now.at ≤ at) × (at + count ≤ self.now.at + length self.now.bytes) }
    {
        if at < self.at || at - self.at > self.bytes.len() as u64 {
            return false;
        }
        count <= self.bytes.len() - (at - self.at) as usize
    }

    /// The bytes of the file at a place, which the piece has.
    pub fn get(&self, at: u64, count: usize) -> &[u8]
        requires from { self.now.at ≤ at }
        requires to { at + count ≤ self.now.at + length self.now.bytes }
        ensures length { length result.now ≡ count }
        ensures bytes { result.now ≡ take count (drop (at - self.now.at) self.now.bytes) }
    {
        let from = (at - self.at) as usize;
        &self.bytes[from..from + count]
    }

    /// Reads a new piece, unless the piece has these bytes of the file. The old piece is released first. The new one
    /// needs memory for the bytes, or for at most 65,536 bytes if they are fewer.
    pub fn reach<D: Disk>(&mut self, disk: &mut D, at: u64, count: usize) -> Result<(), JournalStop>
        requires within { at + count ≤ self.old.end }
        requires on { IsPieceOf (D.state disk.old) self.old }
        ensures disk { OnlyReads (stop_in result) (D.state disk.old) (D.state disk.new) }
        ensures on { IsPieceOf (D.state disk.new) self.new }
        ensures end { self.new.end ≡ self.old.end }
        ensures from { OnOk result (self.new.at ≤ at) }
        ensures to { OnOk result (at + count ≤ self.new.at + length self.new.bytes) }
        ensures outside { IfErr result IsOutside }
    {
        if self.has(at, count) {
            return Ok(());
        }
        let most = (self.end - at).min(MOST_READ as u64) as usize;
        self.bytes = Vec::new(self.alloc);
        self.bytes = part(self.alloc, disk, at, count.max(most))?;
        self.at = at;
        Ok(())
    }

    /// A copy of the bytes of the file at a place. It needs memory for them, and for at most 65,536 other bytes.
    pub fn bytes<D: Disk>(
        &mut self,
        disk: &mut D,
        at: u64,
        count: usize,
    ) -> Result<Vec<u8>, JournalStop>
        requires within { at + count ≤ self.old.end }
        requires on { IsPieceOf (D.state disk.old) self.old }
        ensures disk { OnlyReads (stop_in result) (D.state disk.old) (D.state disk.new) }
        ensures on { IsPieceOf (D.state disk.new) self.new }
        ensures end { self.new.end ≡ self.old.end }
        ensures length { IfOk result (λ bytes. length bytes.items ≡ count) }
        ensures bytes { IfOk result (λ bytes. IfSome (D.state disk.old).content.seen
            (λ file. bytes.items ≡ take count (drop at file))) }
        ensures outside { IfErr result IsOutside }
    {
        if count > MOST_READ {
            return part(self.alloc, disk, at, count);
        }
        self.reach(disk, at, count)?;
        Ok(copied(self.alloc, self.get(at, count))?)
    }
}
