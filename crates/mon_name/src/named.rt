ghost use Rattle.std.specs.Prelude.{◌≡◌};
ghost use Rattle.mon_link.specs.Histories.Happened.{Received, WasSent};
ghost use Rattle.mon_link.specs.Layers.{Above, Grows};
ghost use Rattle.mon_link.specs.Links.{CallsSend, unseen};
ghost use Rattle.mon_link.specs.declared.link.Got.TheVariants.{Datagram};
ghost use Rattle.mon_link.specs.declared.link.Peer.TheVariants.{Client, Monitor};
ghost use Rattle.mon_name.specs.Histories.{AnyNames, IsAskedOnce, IsAskedPast, IsAskedToSend, NamedDoes, names};
ghost use Rattle.mon_name.specs.Numbers.{renumbered};
ghost use Rattle.mon_name.specs.Naming.{Opens, Takes, Unframes, wired};

use crate::frame::{framed_for, unframed};
use crate::life::Life;
use crate::renumber::renumbered;
use mon_bytes::{Bytes, OutOfMemory};
use mon_frag::is_piece;
use mon_link::{Got, Link, Peer};
use mon_types::{Rank, Stop};
use std::alloc::Global;

/// How often the link below is asked again after a foreign datagram at one call.
const MOST_FOREIGN: usize = 64;

/// A link whose datagrams between monitors are in the frame of a quorum's tag. What comes from a monitor's address without
/// this frame is foreign, and is dropped. In pieces of long messages, to monitors and to clients, the number of a life
/// replaces the boot of the sender.
#[derive(Drop)]
pub struct Named<L: Link + Drop> {
    pub inner: L,
    pub tag: u64,
    pub life: Life,
    alloc: Global,
}

/// A monitor's datagram without its frame; `None` if it isn't in the frame of this tag.
fn came(alloc: Global, tag: u64, rank: Rank, bytes: &[u8]) -> Result<Option<Got>, OutOfMemory>
    ensures { Opens tag (Datagram (Monitor rank) bytes.now) result }
{
    let Some(datagram) = unframed(tag, bytes) else {
        return Ok(None);
    };
    Ok(Some(Got::Datagram {
        from: Peer::Monitor(rank),
        bytes: Bytes::new(Vec::from_slice(alloc, datagram)?),
    }))
}

/// What was given, without its frame. `None` if it is a foreign datagram: one from a monitor's address that isn't in
/// the frame of this tag.
fn opened(alloc: Global, tag: u64, got: Got) -> Result<Option<Got>, OutOfMemory>
    ensures { Opens tag got result }
{
    match got {
        Got::Datagram { from, bytes } => match from {
            Peer::Monitor(rank) => came(alloc, tag, rank, bytes.as_slice()),
            Peer::Client(number) => Ok(Some(Got::Datagram {
                from: Peer::Client(number),
                bytes,
            })),
        },
        Got::Idle => Ok(Some(Got::Idle)),
        Got::Closed => Ok(Some(Got::Closed)),
    }
}

impl<L: Link + Drop> Named<L> {
    /// A link over this one, for the quorum of a tag and the life of a number.
    pub fn new(inner: L, tag: u64, life: Life, alloc: Global) -> Named<L>
        ensures inner { result.inner ≡ inner }
        ensures tag { result.tag ≡ tag }
        ensures life { result.life ≡ life }
    {
        Named {
            inner,
            tag,
            life,
            alloc,
        }
    }

    /// Asks the link below once. Returns what it gave without its frame; `None` if that is a foreign datagram.
    fn takes(&mut self, wait: u64) -> Result<Option<Got>, Stop>
        ensures takes { Takes self.old.tag wait result (L.state self.old.inner) (L.state self.new.inner) }
        ensures grows { Grows (L.history self.old.inner) (IsAskedOnce self.old.tag wait result) (L.history self.new.inner) }
        ensures tag { self.new.tag ≡ self.old.tag }
        ensures life { self.new.life ≡ self.old.life }
    {
        let got = self.inner.next(wait)?;
        match opened(self.alloc, self.tag, got) {
            Ok(opened) => Ok(opened),
            Err(_) => Err(Stop::OutOfMemory),
        }
    }

    /// Asks the link below for this long, and again without waiting after each foreign datagram.
    fn asks_past(&mut self, wait: u64) -> Result<Got, Stop>
        ensures asks { Unframes self.old.tag wait result (L.state self.old.inner) (L.state self.new.inner) }
        ensures grows { Grows (L.history self.old.inner) (IsAskedPast self.old.tag wait result) (L.history self.new.inner) }
        ensures tag { self.new.tag ≡ self.old.tag }
        ensures life { self.new.life ≡ self.old.life }
    {
        let mut rest = wait;
        for _ in 0..MOST_FOREIGN {
            if let Some(got) = self.takes(rest)? {
                return Ok(got);
            }
            rest = 0;
        }
        match self.takes(rest)? {
            Some(got) => Ok(got),
            None => Ok(Got::Idle),
        }
    }

    /// Sends a piece of a long message to a client, with the number of the life. Any other datagram goes as it is.
    fn sends_to(&mut self, client: u32, bytes: &[u8]) -> Result<(), Stop>
        ensures sends { CallsSend (Client client) (renumbered self.old.life bytes.now) result
            (L.state self.old.inner) (L.state self.new.inner) }
        ensures grows { Grows (L.history self.old.inner)
            (IsAskedToSend (Client client) (renumbered self.old.life bytes.now) result) (L.history self.new.inner) }
        ensures tag { self.new.tag ≡ self.old.tag }
        ensures life { self.new.life ≡ self.old.life }
    {
        if !is_piece(bytes) {
            return self.inner.send(Peer::Client(client), bytes);
        }
        match renumbered(self.alloc, self.life, bytes) {
            Ok(datagram) => self.inner.send(Peer::Client(client), datagram.as_slice()),
            Err(_) => Err(Stop::OutOfMemory),
        }
    }
}

impl<L: Link + Drop> Link for Named<L> {
    ghost state = { λ r. unseen (L.state r.inner).faults };

    ghost history = { λ r. Above NamedDoes AnyNames (L.history r.inner) (names r.tag r.life) };

    /// Asks the link below for what comes, for as long. After a foreign datagram it is asked again at once, without
    /// waiting, at most 64 times. Foreign ones are dropped, and its last answer is handed on. If that is a foreign
    /// datagram too, the answer is Idle.
    fn next(&mut self, wait: u64) -> Result<Got, Stop>
        ensures asks { Unframes self.old.tag wait result (L.state self.old.inner) (L.state self.new.inner) }
        ensures does { Grows (L.history self.old.inner)
            (λ calls. NamedDoes (names self.old.tag self.old.life) (Received wait result) calls (names self.new.tag self.new.life))
            (L.history self.new.inner) }
        ensures tag { self.new.tag ≡ self.old.tag }
        ensures life { self.new.life ≡ self.old.life }
    {
        self.asks_past(wait)
    }

    /// Asks the link below once to send the datagram, with the number of the life, and framed if it goes to a monitor.
    fn send(&mut self, to: Peer, bytes: &[u8]) -> Result<(), Stop>
        ensures sends { CallsSend to (wired self.old.tag self.old.life to bytes.now) result
            (L.state self.old.inner) (L.state self.new.inner) }
        ensures does { Grows (L.history self.old.inner)
            (λ calls. NamedDoes (names self.old.tag self.old.life) (WasSent to bytes.now result) calls (names self.new.tag self.new.life))
            (L.history self.new.inner) }
        ensures tag { self.new.tag ≡ self.old.tag }
        ensures life { self.new.life ≡ self.old.life }
    {
        match to {
            Peer::Monitor(rank) => match framed_for(self.alloc, self.tag, self.life, bytes) {
                Ok(datagram) => self.inner.send(Peer::Monitor(rank), datagram.as_slice()),
                Err(_) => Err(Stop::OutOfMemory),
            },
            Peer::Client(client) => self.sends_to(client, bytes),
        }
    }
}
