//! Which messages are kept, and what ends them.

ghost use Rattle.std.specs.Prelude.{◌≡◌, ◌||◌, ◌&&◌, ◌==◌};
ghost use Rattle.mon_decode.specs.Headers.{same_kind};
ghost use Rattle.mon_resend.specs.Rows.{ends, is_answered, is_asked_again, is_chunk, is_copying, is_measured, is_of_epoch, way_of};

use mon_decode::{Header, same_kind};
use mon_wire::Kind;

/// How a message is sent again.
#[derive(Clone, Copy, PartialEq, Eq)]
pub enum Way {
    /// It isn't kept.
    Never,
    /// If it isn't answered within a time.
    ByTime,
    /// When its question arrives again.
    WhenAsked,
}

/// How a message of this kind is sent again.
pub(crate) fn way_of(kind: Kind) -> Way
    ensures { result ≡ way_of kind }
{
    match kind {
        Kind::Propose
        | Kind::Victory
        | Kind::Collect
        | Kind::Begin
        | Kind::Commit
        | Kind::Lease
        | Kind::Forward
        | Kind::GetCookieFull
        | Kind::GetCookieRecent
        | Kind::GetChunk => Way::ByTime,
        Kind::Accept | Kind::Route | Kind::Chunk | Kind::LastChunk => Way::WhenAsked,
        Kind::Probe
        | Kind::ProbeReply
        | Kind::Ack
        | Kind::Last
        | Kind::LeaseAck
        | Kind::Cookie
        | Kind::NoCookie
        | Kind::Ping
        | Kind::PingReply
        | Kind::Request
        | Kind::Reply => Way::Never,
    }
}

/// Whether the epoch of a message of this kind is compared with others: a greater one ends copies of an earlier one.
pub(crate) fn is_of_epoch(kind: Kind) -> bool
    ensures { result ≡ is_of_epoch kind }
{
    match kind {
        Kind::Probe
        | Kind::Propose
        | Kind::Ack
        | Kind::Victory
        | Kind::Collect
        | Kind::Last
        | Kind::Begin
        | Kind::Accept
        | Kind::Commit
        | Kind::Lease
        | Kind::LeaseAck
        | Kind::Forward
        | Kind::Route => true,
        Kind::ProbeReply
        | Kind::GetCookieFull
        | Kind::GetCookieRecent
        | Kind::Cookie
        | Kind::GetChunk
        | Kind::Chunk
        | Kind::LastChunk
        | Kind::NoCookie
        | Kind::Ping
        | Kind::PingReply
        | Kind::Request
        | Kind::Reply => false,
    }
}

fn is_either(kind: Kind, one: Kind, other: Kind) -> bool
    ensures { result ≡ (same_kind kind one || same_kind kind other) }
{
    same_kind(kind, one) || same_kind(kind, other)
}

fn is_copying(kind: Kind) -> bool
    ensures { result ≡ is_copying kind }
{
    is_either(kind, Kind::GetCookieFull, Kind::GetCookieRecent) || same_kind(kind, Kind::GetChunk)
}

fn is_chunk(kind: Kind) -> bool
    ensures { result ≡ is_chunk kind }
{
    is_either(kind, Kind::Chunk, Kind::LastChunk)
}

/// Whether a new message of kind `sent` to a monitor ends the copies of kind `kept` for that monitor.
pub(crate) fn ends(sent: Kind, kept: Kind) -> bool
    ensures { result ≡ ends sent kept }
{
    match sent {
        Kind::Collect => {
            is_either(kept, Kind::Collect, Kind::Begin)
                || is_either(kept, Kind::Commit, Kind::Lease)
        }
        Kind::Begin => {
            is_either(kept, Kind::Begin, Kind::Collect) || same_kind(kept, Kind::Lease)
        }
        Kind::Commit => {
            is_either(kept, Kind::Commit, Kind::Begin) || same_kind(kept, Kind::Lease)
        }
        Kind::GetCookieFull | Kind::GetCookieRecent | Kind::GetChunk => is_copying(kept),
        Kind::Chunk | Kind::LastChunk => is_chunk(kept),
        Kind::Forward => false,
        Kind::Propose
        | Kind::Victory
        | Kind::Accept
        | Kind::Lease
        | Kind::Route
        | Kind::Probe
        | Kind::ProbeReply
        | Kind::Ack
        | Kind::Last
        | Kind::LeaseAck
        | Kind::Cookie
        | Kind::NoCookie
        | Kind::Ping
        | Kind::PingReply
        | Kind::Request
        | Kind::Reply => same_kind(kept, sent),
    }
}

fn same_numbers(kept: &Header, came: &Header) -> bool
    ensures { result ≡ (came.now.first == kept.now.first && came.now.second == kept.now.second) }
{
    came.first == kept.first && came.second == kept.second
}

/// Whether a message that arrived from a monitor ends the copies of one to it. A PROBE or PROPOSE of the same epoch is no
/// answer to a PROPOSE: the monitor drops this one while it probes, and then proposes itself. What a copier of the store asks
/// next shows that the CHUNK before it arrived. Nothing that arrives ends a copier's own question: it may answer an earlier
/// one, and the next question follows at once if it doesn't.
pub(crate) fn is_answered(kept: &Header, came: &Header) -> bool
    ensures { result ≡ is_answered kept.now came.now }
{
    match kept.kind {
        Kind::Propose => {
            is_of_epoch(came.kind)
                && (kept.epoch < came.epoch
                    || (came.epoch == kept.epoch && same_kind(came.kind, Kind::Ack)))
        }
        Kind::Victory => {
            is_either(came.kind, Kind::Last, Kind::Accept) || same_kind(came.kind, Kind::LeaseAck)
        }
        Kind::Collect => same_kind(came.kind, Kind::Last) && kept.first <= came.first,
        Kind::Begin => same_kind(came.kind, Kind::Accept) && same_numbers(kept, came),
        Kind::Commit => {
            (same_kind(came.kind, Kind::LeaseAck) && kept.second <= came.first)
                || (same_kind(came.kind, Kind::Accept) && kept.second < came.second)
        }
        Kind::Lease => same_kind(came.kind, Kind::LeaseAck) && came.first == kept.first,
        Kind::Forward => same_kind(came.kind, Kind::Route) && came.first == kept.first,
        Kind::Chunk | Kind::LastChunk => {
            is_copying(came.kind) || same_kind(came.kind, Kind::Probe)
        }
        Kind::Probe
        | Kind::ProbeReply
        | Kind::Ack
        | Kind::Last
        | Kind::Accept
        | Kind::LeaseAck
        | Kind::Route
        | Kind::GetCookieFull
        | Kind::GetCookieRecent
        | Kind::Cookie
        | Kind::GetChunk
        | Kind::NoCookie
        | Kind::Ping
        | Kind::PingReply
        | Kind::Request
        | Kind::Reply => false,
    }
}

/// Whether the message `came` is the question that `kept` answers.
pub(crate) fn is_asked_again(kept: &Header, came: &Header) -> bool
    ensures { result ≡ is_asked_again kept.now came.now }
{
    match kept.kind {
        Kind::Accept => {
            same_kind(came.kind, Kind::Begin)
                && came.epoch == kept.epoch
                && same_numbers(kept, came)
        }
        Kind::Route => {
            same_kind(came.kind, Kind::Forward)
                && came.epoch == kept.epoch
                && came.first == kept.first
        }
        Kind::Chunk | Kind::LastChunk => {
            same_kind(came.kind, Kind::GetChunk) && same_numbers(kept, came)
        }
        Kind::Probe
        | Kind::ProbeReply
        | Kind::Propose
        | Kind::Ack
        | Kind::Victory
        | Kind::Collect
        | Kind::Last
        | Kind::Begin
        | Kind::Commit
        | Kind::Lease
        | Kind::LeaseAck
        | Kind::Forward
        | Kind::GetCookieFull
        | Kind::GetCookieRecent
        | Kind::Cookie
        | Kind::GetChunk
        | Kind::NoCookie
        | Kind::Ping
        | Kind::PingReply
        | Kind::Request
        | Kind::Reply => false,
    }
}

/// Whether the time of the answer to such a message is measured. These are answered at once, or after one sync.
pub(crate) fn is_measured(kind: Kind) -> bool
    ensures { result ≡ is_measured kind }
{
    same_kind(kind, Kind::Begin) || same_kind(kind, Kind::Collect) || same_kind(kind, Kind::Forward)
}
