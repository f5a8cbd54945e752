//! Which role of a monitor answers an input.

ghost use Rattle.std.specs.Prelude.{◌≡◌};
ghost use Rattle.mon_event.specs.Roles.{hearer, woken_by};

use mon_msg::{Body, Timer};

/// The roles of a monitor.
#[derive(Clone, Copy, PartialEq, Eq)]
pub enum Role {
    /// Finds the others, and calls an election or copies a store.
    Prober,
    /// Elects a leader, and measures who answers.
    Elector,
    /// Leads a quorum.
    Leader,
    /// Follows a leader.
    Peon,
    /// Takes what clients ask, and answers it.
    Clients,
    /// Gives its store to a monitor that fell behind.
    Provider,
    /// Takes another monitor's store, if it fell behind itself.
    Requester,
}

/// The role that hears a message. None hears a request or a reply, which go between clients and monitors.
pub fn hearer(body: &Body) -> Option<Role>
    ensures { result ≡ hearer body.now }
{
    match body {
        Body::Probe | Body::ProbeReply { .. } => Some(Role::Prober),
        Body::Propose { .. } | Body::Ack | Body::Victory { .. } => Some(Role::Elector),
        Body::Ping { .. } | Body::PingReply { .. } => Some(Role::Elector),
        Body::Last { .. } | Body::Accept { .. } | Body::LeaseAck { .. } => Some(Role::Leader),
        Body::Collect { .. } | Body::Begin { .. } => Some(Role::Peon),
        Body::Commit { .. } | Body::Lease { .. } => Some(Role::Peon),
        Body::Forward { .. } | Body::Route { .. } => Some(Role::Clients),
        Body::GetCookieFull | Body::GetCookieRecent { .. } => Some(Role::Provider),
        Body::GetChunk { .. } => Some(Role::Provider),
        Body::Cookie { .. } | Body::NoCookie { .. } => Some(Role::Requester),
        Body::Chunk { .. } | Body::LastChunk { .. } => Some(Role::Requester),
        Body::Request { .. } | Body::Reply { .. } => None,
    }
}

/// The role that a timer wakes.
pub fn woken_by(kind: Timer) -> Role
    ensures { result ≡ woken_by kind }
{
    match kind {
        Timer::Probe => Role::Prober,
        Timer::Election | Timer::Ping => Role::Elector,
        Timer::Collect | Timer::Accept | Timer::Renew | Timer::LeaseAck => Role::Leader,
        Timer::Lease => Role::Peon,
        Timer::Sync | Timer::Step => Role::Requester,
        Timer::Propose => Role::Clients,
    }
}
