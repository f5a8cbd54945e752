//! Datagrams of the system. Contracts see nothing of what is received or sent, only whether a call failed.

ghost use Rattle.std.specs.Prelude.{◌≡◌, ℕ, IsTrue, None, Some, ◌≤◌, IfOk, option_map, vec_len};
ghost use Rattle.mon_link.specs.Clients.{Recognizes, KnowsSender, is_datagram};
ghost use Rattle.mon_link.specs.Histories.{Leads};
ghost use Rattle.mon_link.specs.Links.{CallsNext, CallsSend, unseen};

use crate::clients::Clients;
use crate::link::{Got, Link, Peer};
use crate::outside::raised;
use crate::passing::Passing;
use libc::net::{POLLIN, POLLOUT, SO_RCVBUF, SOL_SOCKET, getsockopt, poll, setsockopt};
use libc::types::pollfd;
use mon_bytes::{Bytes, OutOfMemory};
use mon_types::{Rank, Stop};
use std::io;
use std::io::{Error, ErrorKind};
use std::net::{Ipv4Addr, Net, SocketAddr, UdpSocket};
use std::os::fd::AsRawFd;

/// More bytes than a datagram can have.
const ROOM: usize = 65_536;

/// How many bytes the system is asked to keep of datagrams that came and weren't taken yet. A long message is up to 18 of
/// them, sent one after the other, and the room that a socket has by default is often that of three.
const RECEIVE_BUFFER: i32 = 4_194_304;

/// What the system charges to a socket for one message of the greatest length: 18 datagrams of 92 KB each, in frames of
/// 1,500 bytes.
const LONG_MESSAGE: u32 = 1_700_000;

/// How long a datagram waits until the system has room to send it, in milliseconds.
const SEND_WAIT: u64 = 200;

/// The longest pause after a receive that failed for a passing reason, in milliseconds.
const PASSING_PAUSE: u64 = 10;

/// The system's number for a lack of buffers. It has no `ErrorKind`.
const ENOBUFS: i32 = 105;

/// The address at which a monitor listens.
#[derive(Clone, Copy, PartialEq, Eq)]
pub struct Address {
    pub host: [u8; 4],
    pub port: u16,
}

impl Address {
    pub(crate) fn of_system(self) -> SocketAddr {
        SocketAddr::from((Ipv4Addr::from(self.host), self.port))
    }
}

/// A socket for datagrams. What comes from a monitor's address comes from that monitor, and what comes from any other
/// one from a client. 1,024 of these addresses are the clients 0 to 1,023. If all numbers are taken, a new address takes
/// that of another.
#[derive(Drop)]
pub struct UdpLink<R: Net + Copy> {
    rt: R,
    own: Option<Rank>,
    addresses: Vec<Address>,
    clients: Clients,
    socket: Option<UdpSocket>,
    room: Vec<u8>,
    failure: Option<Error>,
    passing: Passing,
    faults: u64,
}

impl<R: Net + Copy> UdpLink<R> {
    /// The link of a monitor, given the addresses in order of rank. Its first call binds its own address.
    pub fn named(rt: &R, own: Rank, addresses: Vec<Address>) -> UdpLink<R>
        ensures own { result.own ≡ Some own }
        ensures addresses { result.addresses ≡ addresses }
        ensures failure { result.failure ≡ None }
        ensures faults { result.faults ≡ 0 }
    {
        UdpLink::of(rt, Some(own), addresses)
    }

    /// The link of a client to the monitors at these addresses. Its first call binds any port.
    pub fn client(rt: &R, addresses: Vec<Address>) -> UdpLink<R>
        ensures own { result.own ≡ None }
        ensures addresses { result.addresses ≡ addresses }
        ensures failure { result.failure ≡ None }
        ensures faults { result.faults ≡ 0 }
    {
        UdpLink::of(rt, None, addresses)
    }

    fn of(rt: &R, own: Option<Rank>, addresses: Vec<Address>) -> UdpLink<R>
        ensures own { result.own ≡ own }
        ensures addresses { result.addresses ≡ addresses }
        ensures failure { result.failure ≡ None }
        ensures faults { result.faults ≡ 0 }
    {
        let alloc = *addresses.allocator();
        UdpLink {
            rt: *rt,
            own,
            addresses,
            clients: Clients::new(alloc),
            socket: None,
            room: Vec::new(alloc),
            failure: None,
            passing: Passing::new(),
            faults: 0,
        }
    }

    /// The system's error at the first call of `next` that failed.
    pub fn failure(&self) -> Option<&Error>
        ensures { option_map (λ error. error.now) result ≡ self.now.failure }
    {
        self.failure.as_ref()
    }

    /// The address of a monitor, if there is one.
    fn monitor(&self, rank: Rank) -> Option<SocketAddr> {
        let address = self.addresses.get(usize::from(rank.get()))?;
        Some(address.of_system())
    }

    /// The address at which the link listens.
    fn here(&self) -> io::Result<SocketAddr> {
        match self.own {
            Some(rank) => Ok(self.monitor(rank).ok_or(ErrorKind::AddrNotAvailable)?),
            None => Ok(SocketAddr::from((Ipv4Addr::UNSPECIFIED, 0))),
        }
    }

    /// Binds the socket, unless it is bound, as the first call does. Returns how many bytes of datagrams the system
    /// keeps for it, if that is less than one message of the greatest length takes. If the socket can't be bound,
    /// nothing is returned, and the next call reports why.
    pub fn short_room(&mut self) -> Option<u32>
        ensures own { self.new.own ≡ self.old.own }
        ensures addresses { self.new.addresses ≡ self.old.addresses }
        ensures failure { self.new.failure ≡ self.old.failure }
        ensures faults { self.new.faults ≡ self.old.faults }
    {
        if self.open().is_err() {
            return None;
        }
        let room = given_room(self.socket.as_ref()?)?;
        if room < LONG_MESSAGE {
            Some(room)
        } else {
            None
        }
    }

    /// Binds the socket, unless it is bound. None of its calls waits by itself.
    fn open(&mut self) -> io::Result<()>
        ensures own { self.new.own ≡ self.old.own }
        ensures addresses { self.new.addresses ≡ self.old.addresses }
        ensures clients { self.new.clients ≡ self.old.clients }
        ensures failure { self.new.failure ≡ self.old.failure }
        ensures faults { self.new.faults ≡ self.old.faults }
    {
        if self.socket.is_none() {
            let here = self.here()?;
            let socket = UdpSocket::bind(&self.rt, here)?;
            socket.set_nonblocking(true)?;
            widen(&socket);
            self.socket = Some(socket);
        }
        Ok(())
    }

    /// Makes the buffer into which datagrams are received, unless it is there.
    fn make_room(&mut self) -> Result<(), OutOfMemory>
        ensures clients { self.new.clients ≡ self.old.clients }
        ensures faults { self.new.faults ≡ self.old.faults }
    {
        if self.room.is_empty() {
            self.room = vec![in *self.addresses.allocator(); 0u8; ROOM]?;
        }
        Ok(())
    }

    /// Receives into the buffer. The system is asked to wait only if nothing is there.
    fn receive(&mut self, wait: u64) -> io::Result<(usize, SocketAddr)>
        ensures clients { self.new.clients ≡ self.old.clients }
        ensures faults { self.new.faults ≡ self.old.faults }
        ensures bound { IfOk result (λ r. r.0 ≤ vec_len self.new.room) }
    {
        self.open()?;
        match &self.socket {
            Some(socket) => {
                let came = socket.recv_from(self.room.as_mut_slice());
                if wait == 0 || !would_wait(&came) {
                    return came;
                }
                await_socket(socket, POLLIN, wait);
                socket.recv_from(self.room.as_mut_slice())
            }
            None => Err(ErrorKind::NotConnected.into()),
        }
    }

    /// The bytes that were received.
    fn received(&self, count: usize) -> Result<Bytes, OutOfMemory>
        requires { count ≤ vec_len self.now.room }
    {
        let bytes = Vec::from_slice(*self.addresses.allocator(), &self.room[..count])?;
        Ok(Bytes::new(bytes))
    }

    /// Whether a receive that failed may be tried again: it failed for a passing reason, and not too many receives in a
    /// row failed for one.
    fn passes(&mut self, said: &Error) -> bool
        ensures clients { self.new.clients ≡ self.old.clients }
        ensures faults { self.new.faults ≡ self.old.faults }
    {
        is_passing(said) && self.passing.admit()
    }

    /// Who is at an address.
    fn peer_at(&mut self, sender: SocketAddr) -> Result<Peer, OutOfMemory>
        ensures sender { IfOk result (λ peer. Recognizes peer sender self.old.clients self.new.clients) }
        ensures passing { self.new.passing ≡ self.old.passing }
        ensures faults { self.new.faults ≡ self.old.faults }
    {
        for r in 0..15 {
            if let Some(rank) = Rank::new(r)
                && self.monitor(rank) == Some(sender)
            {
                return Ok(Peer::Monitor(rank));
            }
        }
        Ok(Peer::Client(self.clients.number_of(sender)?))
    }

    fn put(&mut self, to: Peer, bytes: &[u8]) -> io::Result<usize>
        ensures faults { self.new.faults ≡ self.old.faults }
    {
        self.open()?;
        let address = match to {
            Peer::Monitor(rank) => self.monitor(rank),
            Peer::Client(number) => self.clients.address_of(number),
        };
        match (&self.socket, address) {
            (Some(socket), Some(address)) => {
                let went = socket.send_to(bytes, address);
                if !would_wait(&went) {
                    return went;
                }
                await_socket(socket, POLLOUT, SEND_WAIT);
                socket.send_to(bytes, address)
            }
            _ => Err(ErrorKind::AddrNotAvailable.into()),
        }
    }
}

/// Asks for room for the datagrams that come. The system may give less, or none: then more of them are lost on their way.
fn widen(socket: &UdpSocket) {
    let mut value = [0; 16];
    value[..4].copy_from_slice(&RECEIVE_BUFFER.to_ne_bytes());
    let _ = unsafe { setsockopt(socket.as_raw_fd(), SOL_SOCKET, SO_RCVBUF, &value, 4) };
}

/// How many bytes of datagrams the system keeps, as it charges them; `None` if it doesn't say.
fn given_room(socket: &UdpSocket) -> Option<u32> {
    let mut value = [0; 16];
    let mut length = 4;
    let status = unsafe {
        getsockopt(
            socket.as_raw_fd(),
            SOL_SOCKET,
            SO_RCVBUF,
            &mut value,
            &mut length,
        )
    };
    if status < 0 {
        return None;
    }
    Some(u32::from_ne_bytes([value[0], value[1], value[2], value[3]]))
}

/// Waits until the socket has a datagram, or room for one, or until the time is over. The call that follows says which.
fn await_socket(socket: &UdpSocket, events: i16, wait: u64) {
    let mut sockets = [pollfd {
        fd: socket.as_raw_fd(),
        events,
        revents: 0,
    }];
    let _ = poll(&mut sockets, i32::try_from(wait).unwrap_or(i32::MAX));
}

/// Waits.
fn pause(wait: u64) {
    let _ = poll(&mut [], i32::try_from(wait).unwrap_or(i32::MAX));
}

/// Whether a call would have had to wait.
fn would_wait<T>(ended: &io::Result<T>) -> bool {
    match ended {
        Ok(_) => false,
        Err(said) => said.kind() == ErrorKind::WouldBlock,
    }
}

/// Whether a call of the system ended because nothing came in time.
fn is_idle(kind: ErrorKind) -> bool {
    matches!(
        kind,
        ErrorKind::WouldBlock | ErrorKind::TimedOut | ErrorKind::Interrupted
    )
}

/// Whether the system may do at the next try what it couldn't do: it had no memory or no buffer.
fn is_passing(said: &Error) -> bool {
    said.kind() == ErrorKind::OutOfMemory || said.raw_os_error() == Some(ENOBUFS)
}

impl<R: Net + Copy> Link for UdpLink<R> {
    ghost state = { λ l. unseen l.faults };

    /// Of what came and went nothing is known but how many receives failed. Other calls may have been made before.
    ghost history = { λ l h. (before : ℕ) × Leads h (unseen before) (unseen l.faults) };

    fn next(&mut self, wait: u64) -> Result<Got, Stop>
        ensures calls { CallsNext wait result (unseen self.old.faults) (unseen self.new.faults) }
        ensures sender { IfOk result (λ got. KnowsSender got self.old.clients self.new.clients) }
        ensures passing { IfOk result (λ got. IsTrue (is_datagram got) → self.new.passing.count ≡ 0) }
    {
        if self.make_room().is_err() {
            return Err(Stop::OutOfMemory);
        }
        match self.receive(wait) {
            Ok((count, sender)) => {
                self.passing = Passing::new();
                let Ok(bytes) = self.received(count) else {
                    return Err(Stop::OutOfMemory);
                };
                let Ok(from) = self.peer_at(sender) else {
                    return Err(Stop::OutOfMemory);
                };
                Ok(Got::Datagram { from, bytes })
            }
            Err(said) => {
                if is_idle(said.kind()) {
                    self.passing = Passing::new();
                    return Ok(Got::Idle);
                }
                if self.passes(&said) {
                    pause(wait.min(PASSING_PAUSE));
                    return Ok(Got::Idle);
                }
                self.failure = self.failure.take().or(Some(said));
                self.faults = raised(self.faults);
                Err(Stop::Failed)
            }
        }
    }

    fn send(&mut self, to: Peer, bytes: &[u8]) -> Result<(), Stop>
        ensures calls { CallsSend to bytes.now result (unseen self.old.faults) (unseen self.new.faults) }
    {
        match self.put(to, bytes) {
            Ok(count) if count == bytes.len() => Ok(()),
            _ => Err(Stop::Failed),
        }
    }
}
