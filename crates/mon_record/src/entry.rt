//! The entries of a record.

ghost use Rattle.std.specs.Prelude.{◌≡◌, ◌<◌, ◌^◌};
ghost use Rattle.mon_record.specs.Entries.{came, datagram, head, of_kind, of_peer, went};

use byteorder::{ByteOrder, LittleEndian};
use mon_link::{Got, Peer};
use mon_types::Stop;

/// How many bytes of an entry come before those that it counts.
pub const HEAD: usize = 18;

/// The clock showed a time.
pub(crate) const READ: u8 = 1;

/// A datagram came.
const CAME: u8 = 2;

/// Nothing came in time.
const IDLE: u8 = 3;

/// The link is closed.
const CLOSED: u8 = 4;

/// The link couldn't receive.
const DEAF: u8 = 5;

/// Memory ran out as the link received.
const FULL: u8 = 6;

/// A datagram was sent.
const SENT: u8 = 7;

/// A datagram couldn't be sent.
const LOST: u8 = 8;

/// Memory ran out as a datagram was sent.
const UNSENT: u8 = 9;

/// Entries are missing here.
pub(crate) const GAP: u8 = 10;

/// The monitor ended.
pub(crate) const END: u8 = 11;

/// What an entry says before its length: its kind, a peer, and a number whose meaning the kind gives.
#[derive(Clone, Copy)]
pub struct Front {
    pub kind: u8,
    /// 1 for a monitor, 2 for a client, and otherwise 0.
    pub party: u8,
    /// The monitor's rank, or the client's number.
    pub who: u32,
    pub number: u64,
}

impl Front {
    /// Of no peer.
    pub fn of_kind(kind: u8, number: u64) -> Front
        ensures { result ≡ of_kind kind number }
    {
        Front {
            kind,
            party: 0,
            who: 0,
            number,
        }
    }

    /// Of a peer.
    fn of_peer(kind: u8, peer: Peer, number: u64) -> Front
        ensures { result ≡ of_peer kind peer number }
    {
        match peer {
            Peer::Monitor(rank) => Front {
                kind,
                party: 1,
                who: u32::from(rank.get()),
                number,
            },
            Peer::Client(client) => Front {
                kind,
                party: 2,
                who: client,
                number,
            },
        }
    }

    /// The bytes of an entry before the `length` bytes that it counts.
    #[tactic(auto, unfolding(mon_bytes::specs::Forms::u32_bytes, mon_frag::specs::Pieces::u64_bytes))]
    pub fn head(self, length: u32) -> [u8; HEAD]
        ensures { result ≡ head self length }
    {
        let mut bytes = [0; HEAD];
        bytes[0] = self.kind;
        bytes[1] = self.party;
        LittleEndian::write_u32(&mut bytes[2..], self.who);
        LittleEndian::write_u64(&mut bytes[6..], self.number);
        LittleEndian::write_u32(&mut bytes[14..], length);
        bytes
    }
}

/// The entry of what a link returned.
pub(crate) fn came(wait: u64, got: &Result<Got, Stop>) -> Front
    ensures { result ≡ came wait got.now }
{
    match got {
        Ok(Got::Datagram { from, .. }) => Front::of_peer(CAME, *from, wait),
        Ok(Got::Idle) => Front::of_kind(IDLE, wait),
        Ok(Got::Closed) => Front::of_kind(CLOSED, wait),
        Err(Stop::Failed) => Front::of_kind(DEAF, wait),
        Err(Stop::OutOfMemory) => Front::of_kind(FULL, wait),
    }
}

/// The datagram that a link returned, or no bytes.
pub(crate) fn datagram(got: &Result<Got, Stop>) -> &[u8]
    ensures { result.now ≡ datagram got.now }
{
    match got {
        Ok(Got::Datagram { bytes, .. }) => bytes.as_slice(),
        _ => &[],
    }
}

/// The entry of a datagram that a link was asked to send.
pub(crate) fn went(to: &Peer, sent: &Result<(), Stop>) -> Front
    ensures { result ≡ went to.now sent.now }
{
    match sent {
        Ok(()) => Front::of_peer(SENT, *to, 0),
        Err(Stop::Failed) => Front::of_peer(LOST, *to, 0),
        Err(Stop::OutOfMemory) => Front::of_peer(UNSENT, *to, 0),
    }
}
