use mon_link::*;
use mon_types::{Rank, Stop};
use std::io;
use std::io::ErrorKind;
use std::net::{Ipv4Addr, Net, SocketAddr, TcpListener, TcpStream, UdpSocket};
use std::test::Fail;

/// The sender of a datagram that arrived, its first byte, or 0 if it is empty, and its length.
fn shown(got: Result<Got, Stop>) -> Result<Option<(Peer, u8, usize)>, Stop> {
    match got? {
        Got::Datagram { from, bytes } => {
            let bytes = bytes.as_slice();
            let first = bytes.first().copied().unwrap_or(0);
            Ok(Some((from, first, bytes.len())))
        }
        Got::Idle | Got::Closed => Ok(None),
    }
}

#[test]
fn a_clock_runs(rt: HostRuntime) -> Result<(), Fail> {
    let mut clock = RunClock::new(&rt);
    let first = clock.now().get();
    let second = clock.now().get();
    assert!(rt; first <= second && second < 60_000, "{first}, {second}");
    Ok(())
}

/// A system without a network.
#[derive(Clone, Copy)]
struct Bare;

impl Net for Bare {
    type Stream = TcpStream;

    type Listener = TcpListener;

    fn bind(&self, _address: SocketAddr) -> io::Result<TcpListener> {
        Err(ErrorKind::Unsupported.into())
    }

    fn connect(&self, _address: SocketAddr) -> io::Result<TcpStream> {
        Err(ErrorKind::Unsupported.into())
    }
}

#[test]
fn a_link_without_a_network_fails(rt: HostRuntime) {
    let mut link = UdpLink::client(&Bare, Vec::new(rt.alloc()));
    let got = shown(link.next(1));
    let sent = link.send(Peer::Client(0), b"a");
    drop(link);
    assert!(rt; got == Err(Stop::Failed) && sent == Err(Stop::Failed));
}

/// An address of this machine that nobody hears at.
fn free_address(rt: &HostRuntime) -> Result<Address, Fail> {
    let host = [127, 0, 0, 1];
    let socket = UdpSocket::bind(rt, SocketAddr::from((Ipv4Addr::from(host), 0)))?;
    let port = socket.local_addr()?.port();
    Ok(Address { host, port })
}

/// Whether a monitor gets nothing, then what a client asks, and the client its answer.
fn is_answered(rt: &HostRuntime) -> Result<bool, Fail> {
    let addresses = [free_address(rt)?];
    let (of_link, of_client) = (addresses.to_vec(rt.alloc())?, addresses.to_vec(rt.alloc())?);
    let monitor = Peer::Monitor(Rank::known(0));
    let mut link = UdpLink::named(rt, Rank::known(0), of_link);
    let mut client = UdpLink::client(rt, of_client);
    let nothing = shown(link.next(1));
    let asked = client.send(monitor, b"ask");
    let request = shown(link.next(5_000));
    let answered = link.send(Peer::Client(0), b"here");
    let answer = shown(client.next(5_000));
    drop(client);
    drop(link);
    let passed = asked.is_ok() && answered.is_ok() && nothing == Ok(None);
    Ok(
        passed
            && request == Ok(Some((Peer::Client(0), b'a', 3)))
            && answer == Ok(Some((monitor, b'h', 4))),
    )
}

#[test]
fn a_client_is_answered(rt: HostRuntime) -> Result<(), Fail> {
    assert!(rt; is_answered(&rt)?);
    Ok(())
}

/// Monitor 1 of 2 probes.
const PROBE: &[u8] = b"\x01\x01\x01\x02\x01\0\0\0\0\0\0\0";

/// Whether this came, and from that monitor.
fn is_probe_of(got: Result<Got, Stop>, rank: Rank) -> bool {
    let Ok(Got::Datagram { from, bytes }) = got else {
        return false;
    };
    let is_probe = bytes.as_slice() == PROBE;
    drop(bytes);
    is_probe && from == Peer::Monitor(rank)
}

/// Whether a monitor gets nothing, and then the PROBE of another one as from its address.
fn is_known(rt: &HostRuntime) -> Result<bool, Fail> {
    let addresses = [free_address(rt)?, free_address(rt)?];
    let (of_first, of_second) = (addresses.to_vec(rt.alloc())?, addresses.to_vec(rt.alloc())?);
    let mut first = UdpLink::named(rt, Rank::known(0), of_first);
    let mut second = UdpLink::named(rt, Rank::known(1), of_second);
    let nothing = shown(first.next(1));
    let sent = second.send(Peer::Monitor(Rank::known(0)), PROBE);
    let came = is_probe_of(first.next(5_000), Rank::known(1));
    drop(second);
    drop(first);
    Ok(nothing == Ok(None) && sent.is_ok() && came)
}

#[test]
fn a_monitor_is_known_by_its_address(rt: HostRuntime) -> Result<(), Fail> {
    assert!(rt; is_known(&rt)?);
    Ok(())
}
