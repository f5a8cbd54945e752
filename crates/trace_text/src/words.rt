//! The words of traces.

ghost use Rattle.std.specs.Prelude.{◌≡◌};
ghost use Rattle.trace_text.specs.Words.{flag_text, fate_text, phase_text, kind_text};

use mon_wire::{Body, Phase};

/// The text of a flag, `1` or `0`.
pub fn flag(value: bool) -> &'static str
    ensures { result.now ≡ flag_text value }
{
    if value { "1" } else { "0" }
}

/// What became of a transaction: `kept` or `lost`.
pub fn fate(kept: bool) -> &'static str
    ensures { result.now ≡ fate_text kept }
{
    if kept { "kept" } else { "lost" }
}

/// The word of a phase.
pub fn phase_word(phase: Phase) -> &'static str
    ensures { result.now ≡ phase_text phase }
{
    match phase {
        Phase::Booting => "booting",
        Phase::Probing => "probing",
        Phase::Synchronizing => "synchronizing",
        Phase::Electing => "electing",
        Phase::Collecting => "collecting",
        Phase::Previous => "previous",
        Phase::Active => "active",
        Phase::Updating => "updating",
        Phase::Peon => "peon",
    }
}

/// The name of a message's kind, in capitals.
pub fn kind_word(body: &Body) -> &'static str
    ensures { result.now ≡ kind_text body.now }
{
    match body {
        Body::Probe => "PROBE",
        Body::ProbeReply { .. } => "PROBE_REPLY",
        Body::Propose { .. } => "PROPOSE",
        Body::Ack => "ACK",
        Body::Victory { .. } => "VICTORY",
        Body::Collect { .. } => "COLLECT",
        Body::Last { .. } => "LAST",
        Body::Begin { .. } => "BEGIN",
        Body::Accept { .. } => "ACCEPT",
        Body::Commit { .. } => "COMMIT",
        Body::Lease { .. } => "LEASE",
        Body::LeaseAck { .. } => "LEASE_ACK",
        Body::Forward { .. } => "FORWARD",
        Body::Route { .. } => "ROUTE",
        Body::GetCookieFull => "GET_COOKIE_FULL",
        Body::GetCookieRecent { .. } => "GET_COOKIE_RECENT",
        Body::Cookie { .. } => "COOKIE",
        Body::GetChunk { .. } => "GET_CHUNK",
        Body::Chunk { .. } => "CHUNK",
        Body::LastChunk { .. } => "LAST_CHUNK",
        Body::NoCookie { .. } => "NO_COOKIE",
        Body::Ping { .. } => "PING",
        Body::PingReply { .. } => "PING_REPLY",
        Body::Request { .. } => "REQUEST",
        Body::Reply { .. } => "REPLY",
    }
}
