//! What the roles of a monitor see of one another, and which messages are heard.

ghost use Rattle.std.specs.Prelude.{◌≡◌, ◌&&◌, ◌==◌, not, true};
ghost use Rattle.mon_msg.specs.Protocol.Entering.{scores_count};
ghost use Rattle.mon_msg.specs.Protocol.Hearing.{fits_rule, has_fitting_table, is_heard};
ghost use Rattle.mon_msg.specs.Protocol.Phases.{is_leading, phase_of};
ghost use Rattle.mon_msg.specs.Protocol.Reads.{is_standing};
ghost use Rattle.mon_msg.specs.Protocol.Readings.{readings_of};
ghost use Rattle.mon_msg.specs.Protocol.State.{quorum_of, lease_of};
ghost use Rattle.mon_plan.specs.Seen.{leader_of, IsSeen};
ghost use Rattle.mon_event.specs.State.{state_of};

use crate::state::State;
use election_rules::Rule;
use mon_kv::Kv;
use mon_lease::{Lease, readable};
use mon_msg::{Body, Me, Message, ScoreTable, View};
use mon_stored::Stored;
use mon_types::{Moment, Rank, RankSet};
use std::alloc::Global;

/// The leader that a peon follows, and otherwise the monitor itself.
fn leader_of(me: &Me, state: &State) -> Rank
    ensures { result ≡ leader_of me.now.member.rank (state_of state.now) }
{
    if state.phase.is_peon() {
        state.peon.leader
    } else {
        me.member.rank
    }
}

/// The quorum that the monitor is in, or the empty set.
fn quorum_of(state: &State) -> RankSet
    ensures { result ≡ quorum_of (state_of state.now) }
{
    if state.phase.is_peon() {
        return state.peon.quorum;
    }
    if state.phase.is_leading() {
        return state.leader.quorum;
    }
    RankSet::empty()
}

/// The lease of a monitor that leads or follows, or none.
fn lease_of(state: &State) -> Lease
    ensures { result ≡ lease_of (state_of state.now) }
{
    if state.phase.is_peon() {
        return state.peon.lease;
    }
    if state.phase.is_leading() {
        return state.leader.lease;
    }
    Lease::none()
}

/// Whether the monitor's lease is valid, or the monitor is alone in its map.
fn is_standing(me: &Me, state: &State, now: Moment) -> bool
    ensures { result ≡ is_standing me.now now (state_of state.now) }
{
    me.member.monitors == 1 || lease_of(state).standing(now)
}

/// What each role sees of the others.
pub fn view(alloc: Global, kv: &Kv, me: &Me, state: &State, now: Moment) -> View
    requires { is_leading state.now.phase ≡ true → phase_of state.now.leader.stage ≡ state.now.phase }
    ensures { IsSeen me.now now (readings_of kv.now) (state_of state.now) result }
{
    let last = Stored::of(alloc, kv).last();
    let lease = lease_of(state);
    View {
        phase: state.phase,
        leader: leader_of(me, state),
        quorum: quorum_of(state),
        standing: is_standing(me, state, now),
        readable: readable(last, me.member.monitors, &lease, now),
    }
}

// ---- messages

/// Whether the rule of elections counts scores.
pub fn scores_count(rule: &Rule) -> bool
    ensures { result ≡ scores_count rule.now }
{
    match rule {
        Rule::Classic | Rule::Disallow(_) => false,
        Rule::Connectivity(_) => true,
    }
}

/// Whether a table is sent if and only if scores count.
fn fits_rule(me: &Me, table: &Option<ScoreTable>) -> bool
    ensures { result ≡ fits_rule me.now table.now }
{
    match table {
        Some(_) => scores_count(&me.rule),
        None => !scores_count(&me.rule),
    }
}

/// Whether the body of a message has a table if and only if scores count, for a body that may have one.
fn has_fitting_table(me: &Me, body: &Body) -> bool
    ensures { result ≡ has_fitting_table me.now body.now }
{
    match body {
        Body::Propose { table } => fits_rule(me, table),
        Body::Ping { table } => fits_rule(me, table),
        Body::PingReply { table } => fits_rule(me, table),
        Body::Probe
        | Body::ProbeReply { .. }
        | Body::Ack
        | Body::Victory { .. }
        | Body::Collect { .. }
        | Body::Last { .. }
        | Body::Begin { .. }
        | Body::Accept { .. }
        | Body::Commit { .. }
        | Body::Lease { .. }
        | Body::LeaseAck { .. }
        | Body::Forward { .. }
        | Body::Route { .. }
        | Body::GetCookieFull
        | Body::GetCookieRecent { .. }
        | Body::Cookie { .. }
        | Body::GetChunk { .. }
        | Body::Chunk { .. }
        | Body::LastChunk { .. }
        | Body::NoCookie { .. }
        | Body::Request { .. }
        | Body::Reply { .. } => true,
    }
}

/// Whether a message is taken: it is of another monitor of the same quorum map, and has a table of scores if and only
/// if the rule counts them.
pub fn is_heard(me: &Me, message: &Message) -> bool
    ensures { result ≡ is_heard me.now message.now }
{
    message.from != me.member.rank
        && message.monitors == me.member.monitors
        && has_fitting_table(me, &message.body)
}
