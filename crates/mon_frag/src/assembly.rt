ghost use Rattle.std.specs.Prelude.{◌≡◌, ◌<◌, nat_lt, not, ◌&&◌, if◌then◌else◌, None, ◌≤◌, ◌++◌, [], ◌∷◌, IfOk, IfSome, OnOk, OnErr, Some, length, slice_get};
ghost use Rattle.std.specs.List.{position};
ghost use Rattle.mon_frag.specs.declared.assembly.TheConstants.{MOST_OF_CLIENTS};
ghost use Rattle.mon_frag.specs.declared.cutting.TheConstants.{DATAGRAM};
ghost use Rattle.mon_frag.specs.Headers.{is_piece};
ghost use Rattle.mon_frag.specs.Keeping.{Takes, taken, piece_taken, at_found, joined_with, first_of, oldest_against, is_client, is_of, same_peer, without};

use crate::cutting::DATAGRAM;
use crate::header::{Header, PART, is_piece, piece_payload, read_header};
use crate::partial::{Joined, Partial};
use crate::refused::FragRefused;
use mon_bytes::{Bytes, OutOfMemory};
use mon_link::Peer;
use std::alloc::Global;
use std::marker::Model;

/// How many messages of one monitor are kept. Pieces of one may come among those of the next.
pub(crate) const MOST_OF_MONITOR: usize = 4;

/// How many messages of one client are kept. A client waits for a reply before it asks again.
pub(crate) const MOST_OF_CLIENT: usize = 1;

/// How many messages of all clients together are kept. Anyone may be a client, so this is what bounds their memory.
pub(crate) const MOST_OF_CLIENTS: usize = 64;

/// The messages of which not all pieces came yet: at most `MOST_OF_MONITOR` of each monitor, `MOST_OF_CLIENT` of each
/// client, and `MOST_OF_CLIENTS` of all clients together.
#[derive(Drop)]
pub struct Assembly {
    kept: Vec<Partial>,
}

impl Model for Assembly {
    ghost use Rattle.std.specs.Prelude.{List};
    ghost use Rattle.mon_frag.specs.declared.partial.Partial.{Partial};

    ghost Value = { List Partial };

    ghost view = { λ a. a.kept.items };
}

/// The place of the first one from a peer.
fn place_from(kept: &[Partial], from: &Peer) -> Option<usize>
    ensures { result ≡ position (λ p. same_peer from.now p.from) kept.now }
{
    kept.iter().position(|p| *from == p.from)
}

/// The place of the first one from a peer, if there are `most` of them.
fn first_from(kept: &[Partial], from: &Peer, most: usize) -> Option<usize>
    ensures { result ≡ first_of most (λ p. same_peer from.now p.from) kept.now }
{
    if kept.iter().filter(|p| *from == p.from).count() < most {
        return None;
    }
    place_from(kept, from)
}

fn is_from_client(from: &Peer) -> bool
    ensures { result ≡ is_client from.now }
{
    match from {
        Peer::Monitor(_) => false,
        Peer::Client(_) => true,
    }
}

/// The place of the first one from a client.
fn place_from_clients(kept: &[Partial]) -> Option<usize>
    ensures { result ≡ position (λ p. is_client p.from) kept.now }
{
    kept.iter().position(|p| is_from_client(&p.from))
}

/// The place of the first one from a client, if there are `MOST_OF_CLIENTS` of them.
fn first_from_clients(kept: &[Partial]) -> Option<usize>
    ensures { result ≡ first_of MOST_OF_CLIENTS (λ p. is_client p.from) kept.now }
{
    if kept.iter().filter(|p| is_from_client(&p.from)).count() < MOST_OF_CLIENTS {
        return None;
    }
    place_from_clients(kept)
}

/// The place of the message that a peer sent under these numbers.
fn place_of(kept: &[Partial], from: &Peer, boot: u64, seq: u64) -> Option<usize>
    ensures place { result ≡ position (is_of from.now boot seq) kept.now }
    ensures within { IfSome result (λ i. i < length kept.now) }
{
    kept.iter().position(|p| p.is_of(from, boot, seq))
}

/// The place of the oldest message that is dropped for a new one of this peer, if the limits require one.
fn oldest(kept: &[Partial], from: &Peer) -> Option<usize>
    ensures place { result ≡ oldest_against from.now kept.now }
    ensures within { IfSome result (λ i. i < length kept.now) }
{
    match from {
        Peer::Monitor(_) => first_from(kept, from, MOST_OF_MONITOR),
        Peer::Client(_) => match first_from(kept, from, MOST_OF_CLIENT) {
            Some(own) => Some(own),
            None => first_from_clients(kept),
        },
    }
}

impl Assembly {
    /// An assembly before anything arrives. It takes no memory.
    pub fn new(alloc: Global) -> Assembly
        ensures { result ≡ [] }
    {
        Assembly {
            kept: Vec::new(alloc),
        }
    }

    /// Keeps a message of which one piece arrived, and drops the oldest one if the limits require it.
    #[tactic(auto, using(crate::proofs::Lists::remove_earlier))]
    fn keep(&mut self, partial: Partial) -> Result<(), OutOfMemory>
        ensures ok { OnOk result (self.new ≡ without self.old (oldest_against partial.from self.old) ++ partial ∷ []) }
        ensures err { OnErr result (self.new ≡ self.old) }
    {
        let going = oldest(self.kept.as_slice(), &partial.from);
        self.kept.push(partial)?;
        if let Some(at) = going {
            let _ = self.kept.remove(at);
        }
        Ok(())
    }

    /// Takes a piece of a message of which no piece is kept.
    fn begin(
        &mut self,
        alloc: Global,
        from: Peer,
        header: Header,
        bytes: &[u8],
    ) -> Result<Option<Bytes>, FragRefused>
        requires { header.place < header.total }
        ensures { Takes result self.old self.new (at_found from header bytes.now self.old None) }
    {
        let partial = Partial::begin(alloc, from, header, bytes)?;
        self.keep(partial)?;
        Ok(None)
    }

    /// Takes a piece of the kept message at a place.
    #[tactic(auto, using(crate::proofs::Lists::joined_ok))]
    fn add(
        &mut self,
        alloc: Global,
        at: usize,
        header: Header,
        bytes: &[u8],
    ) -> Result<Option<Bytes>, FragRefused>
        requires { at < length self.old }
        ensures { Takes result self.old self.new (joined_with header bytes.now self.old at (slice_get self.old at)) }
    {
        let partial = &self.kept[at];
        match partial.join(alloc, header, bytes)? {
            Joined::Clash => Err(FragRefused::Clash),
            Joined::Known => Ok(None),
            Joined::More => {
                let bytes = copied(alloc, bytes)?;
                let partial = &mut self.kept[at];
                partial.parts.put((header.place / PART) as usize, bytes);
                Ok(None)
            }
            Joined::Whole(message) => {
                let _ = self.kept.remove(at);
                Ok(Some(message))
            }
        }
    }

    fn take_piece(
        &mut self,
        alloc: Global,
        from: Peer,
        header: Header,
        bytes: &[u8],
    ) -> Result<Option<Bytes>, FragRefused>
        requires { header.place < header.total }
        ensures { Takes result self.old self.new (piece_taken from bytes.now self.old header) }
    {
        match place_of(self.kept.as_slice(), &from, header.boot, header.seq) {
            Some(at) => self.add(alloc, at, header, bytes),
            None => self.begin(alloc, from, header, bytes),
        }
    }

    /// Takes a datagram from a peer, and returns a message if one is then complete: the datagram itself, if it
    /// doesn't begin with the byte 02, or the message whose last missing piece it is. A piece of a new message evicts
    /// the oldest message if there is no room for both: one of the same peer or, at the limit for all clients, of any
    /// client.
    pub fn take(&mut self, from: Peer, datagram: &[u8]) -> Result<Option<Bytes>, FragRefused>
        ensures { Takes result self.old self.new (taken self.old from datagram.now) }
    {
        let alloc = *self.kept.allocator();
        if datagram.len() > DATAGRAM {
            return Err(FragRefused::TooLong);
        }
        if is_whole(datagram) {
            return Ok(Some(copied(alloc, datagram)?));
        }
        let header = read_header(datagram)?;
        self.take_piece(alloc, from, header, piece_payload(datagram))
    }
}

fn copied(alloc: Global, bytes: &[u8]) -> Result<Bytes, OutOfMemory>
    ensures { IfOk result (λ x. x ≡ bytes.now) }
{
    Ok(Bytes::new(Vec::from_slice(alloc, bytes)?))
}

/// Whether a datagram is a message by itself: it isn't too long, and it is no piece. `take` returns a copy of such a
/// datagram and keeps nothing of it, so a caller may read it without `take`.
pub fn is_whole(datagram: &[u8]) -> bool
    ensures { result ≡ (not (nat_lt DATAGRAM (length datagram.now)) && not (is_piece datagram.now)) }
{
    datagram.len() <= DATAGRAM && !is_piece(datagram)
}
