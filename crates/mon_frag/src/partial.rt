ghost use Rattle.std.specs.Prelude.{◌≡◌, ◌+◌, ◌/◌, ◌<◌, ◌++◌, ◌&&◌, [], take, drop, Some, None, length, replicate, slice_get, slice_set, OnOk, OnErr, IfOk, ◌≢◌, unwrap_or, is_some};
ghost use Rattle.std.specs.List.{list_all, flat_map};
ghost use Rattle.mon_frag.specs.declared.header.TheConstants.{PART};
ghost use Rattle.mon_frag.specs.Keeping.{begun, grown, joined_at, joins, is_of, same_peer};

use crate::cutting::count_of;
use crate::header::{Header, PART};
use mon_bytes::{Bytes, OutOfMemory};
use mon_link::Peer;
use std::alloc::Global;
use std::marker::Model;

/// The parts of a message, each `None` until it arrives.
#[derive(Drop)]
pub struct Parts {
    parts: Vec<Option<Bytes>>,
}

impl Model for Parts {
    ghost use Rattle.std.specs.Prelude.{ℕ, List, Option};

    ghost Value = { List (Option (List ℕ)) };

    ghost view = { λ p. p.parts.items };
}

/// A message of which not all parts are there.
#[derive(Drop)]
pub struct Partial {
    pub from: Peer,
    pub boot: u64,
    pub seq: u64,
    pub total: u32,
    pub parts: Parts,
}

/// What a piece is for an incomplete message.
#[derive(Drop)]
pub enum Joined {
    /// It contradicts an earlier one.
    Clash,
    /// It is there already.
    Known,
    /// It is one more part, and others are still missing.
    More,
    /// It was the only missing part. This is the message.
    Whole(Bytes),
}

fn append(whole: &mut Vec<u8>, parts: &[Option<Bytes>]) -> Result<(), OutOfMemory>
    ensures { OnOk result (whole.new.items ≡ whole.old.items ++ flat_map (λ part. unwrap_or part []) parts.now) }
{
    for part in parts {
        if let Some(bytes) = part {
            whole.extend_from_slice(bytes.as_slice())?;
        }
    }
    Ok(())
}

fn are_there(parts: &[Option<Bytes>]) -> bool
    ensures { result ≡ list_all is_some parts.now }
{
    parts.iter().all(|part| part.is_some())
}

impl Parts {
    /// The parts of a message of `count` parts, of which the one at a place is there.
    fn begin(alloc: Global, count: usize, at: usize, bytes: &[u8]) -> Result<Parts, OutOfMemory>
        requires { at < count }
        ensures { IfOk result (λ parts. parts ≡ slice_set (replicate count None) at (Some bytes.now)) }
    {
        let mut parts = Vec::new(alloc);
        while parts.len() < count {
            parts.push(None)?;
        }
        parts[at] = Some(Bytes::new(Vec::from_slice(alloc, bytes)?));
        Ok(Parts { parts })
    }

    /// Whether every part is there but the one at a place.
    fn are_others_there(&self, at: usize) -> bool
        requires { at < length self.now }
        ensures { result ≡ (list_all is_some (take at self.now) && list_all is_some (drop (at + 1) self.now)) }
    {
        let (front, _) = self.parts.split_at(at);
        let (_, back) = self.parts.split_at(at + 1);
        are_there(front) && are_there(back)
    }

    /// The bytes of the parts, with these at a place. Room for `total` bytes is made at first, which suffices for a
    /// whole message.
    fn around(
        &self,
        alloc: Global,
        total: u32,
        at: usize,
        bytes: &[u8],
    ) -> Result<Vec<u8>, OutOfMemory>
        requires { at < length self.now }
        ensures { IfOk result (λ whole. whole.items ≡ flat_map (λ part. unwrap_or part []) (take at self.now) ++ bytes.now ++ flat_map (λ part. unwrap_or part []) (drop (at + 1) self.now)) }
    {
        let (front, _) = self.parts.split_at(at);
        let (_, back) = self.parts.split_at(at + 1);
        let mut whole = Vec::with_capacity(alloc, total as usize)?;
        append(&mut whole, front)?;
        whole.extend_from_slice(bytes)?;
        append(&mut whole, back)?;
        Ok(whole)
    }

    /// The result of a part at a place that is still empty: the message, if no other part is missing.
    #[tactic(auto, using(crate::proofs::Lists::grown_more, crate::proofs::Lists::grown_whole))]
    fn grow(
        &self,
        alloc: Global,
        total: u32,
        at: usize,
        bytes: &[u8],
    ) -> Result<Joined, OutOfMemory>
        requires { at < length self.now }
        ensures { IfOk result (λ joined. joined ≡ grown (slice_set self.now at (Some bytes.now))) }
    {
        if !self.are_others_there(at) {
            return Ok(Joined::More);
        }
        let whole = self.around(alloc, total, at, bytes)?;
        Ok(Joined::Whole(Bytes::new(whole)))
    }

    /// What a part at a place is for a message of `total` bytes.
    #[tactic(auto, using(crate::proofs::Lists::grown_is))]
    fn join(
        &self,
        alloc: Global,
        total: u32,
        at: usize,
        bytes: &[u8],
    ) -> Result<Joined, OutOfMemory>
        ensures joined { IfOk result (λ joined. joined ≡ joined_at self.now at bytes.now (slice_get self.now at)) }
        ensures room { IfOk result (λ joined. joined ≡ Joined.More → at < length self.now) }
        ensures last { OnErr result (joined_at self.now at bytes.now (slice_get self.now at) ≢ Joined.Clash) }
    {
        if at >= self.parts.len() {
            return Ok(Joined::Clash);
        }
        match &self.parts[at] {
            Some(known) => {
                if known.as_slice() == bytes {
                    Ok(Joined::Known)
                } else {
                    Ok(Joined::Clash)
                }
            }
            None => self.grow(alloc, total, at, bytes),
        }
    }

    pub fn put(&mut self, at: usize, bytes: Bytes)
        requires { at < length self.old }
        ensures { self.new ≡ slice_set self.old at (Some bytes) }
    {
        self.parts[at] = Some(bytes);
    }
}

impl Partial {
    /// The incomplete message that begins with a piece, which may be any of its pieces.
    pub fn begin(
        alloc: Global,
        from: Peer,
        header: Header,
        bytes: &[u8],
    ) -> Result<Partial, OutOfMemory>
        requires { header.place < header.total }
        ensures { IfOk result (λ p. p ≡ record { from = from; boot = header.boot; seq = header.seq; total = header.total; parts = begun header bytes.now }) }
    {
        let count = count_of(header.total as usize);
        let at = (header.place / PART) as usize;
        Ok(Partial {
            from,
            boot: header.boot,
            seq: header.seq,
            total: header.total,
            parts: Parts::begin(alloc, count, at, bytes)?,
        })
    }

    /// Whether it is the message that a peer sent under these numbers.
    pub fn is_of(&self, from: &Peer, boot: u64, seq: u64) -> bool
        ensures { result ≡ is_of from.now boot seq self.now }
    {
        *from == self.from && boot == self.boot && seq == self.seq
    }

    /// What a piece is for it. Changes nothing: the caller puts a part that is new.
    pub fn join(&self, alloc: Global, header: Header, bytes: &[u8]) -> Result<Joined, OutOfMemory>
        ensures joined { IfOk result (λ joined. joined ≡ joins self.now header bytes.now) }
        ensures room { IfOk result (λ joined. joined ≡ Joined.More → header.place / PART < length self.now.parts) }
        ensures last { OnErr result (joins self.now header bytes.now ≢ Joined.Clash) }
    {
        if self.total != header.total {
            return Ok(Joined::Clash);
        }
        let at = (header.place / PART) as usize;
        self.parts.join(alloc, self.total, at, bytes)
    }
}
