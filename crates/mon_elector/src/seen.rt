//! What an elector asks of what it sees and remembers. Each test is a function of its own. Its clause has the form that
//! the protocol's definitions give the test, so that the proof of a row cites one equation for it.

ghost use Rattle.std.specs.Prelude.{◌≡◌, ◌&&◌, ◌||◌, ◌==◌, not, nat_lt, nat_le, suc, is_some, IfOk};
ghost use Rattle.mon_msg.specs.Protocol.Elections.{is_allowed, stands_before, may_defer, is_whole, table_or};
ghost use Rattle.mon_msg.specs.Protocol.Entering.{is_even};
ghost use Rattle.mon_msg.specs.Protocol.Phases.{votes, same_phase};
ghost use Rattle.mon_msg.specs.Protocol.Readings.{epoch_of, readings_of};
ghost use Rattle.mon_types.specs.Ranks.{has, is_majority};
ghost use Rattle.mon_wire.specs.declared.phase.Phase.TheVariants as phase_is;
ghost use Rattle.mon_elector.specs.Rows.{sent_table};

use election_rules::{Rule, Scores, outranks};
use mon_bytes::OutOfMemory;
use mon_msg::{Elector, Me, Phase, ScoreTable, View};
use mon_stored::Stored;
use mon_types::{Epoch, Rank, RankSet};
use std::alloc::Global;

/// Whether a monitor in this phase is in an election.
pub(crate) fn is_electing(phase: Phase) -> bool
    ensures { result ≡ same_phase phase phase_is.Electing }
{
    matches!(phase, Phase::Electing)
}

/// Whether an epoch is even. A quorum has an even epoch, and an election an odd one.
pub(crate) fn is_even(epoch: Epoch) -> bool
    ensures { result ≡ is_even epoch }
{
    epoch.get() % 2 == 0
}

/// Whether the message of a candidate in an epoch is dropped: the monitor takes no part in elections, or the epoch is
/// even.
pub(crate) fn is_deaf(view: &View, epoch: Epoch) -> bool
    ensures { result ≡ (not (votes view.now.phase) || is_even epoch) }
{
    !view.phase.votes() || is_even(epoch)
}

/// Whether the message of a winner in an epoch is dropped: the monitor takes no part in elections, or the epoch is odd.
pub(crate) fn is_deaf_to_winners(view: &View, epoch: Epoch) -> bool
    ensures { result ≡ (not (votes view.now.phase) || not (is_even epoch)) }
{
    !view.phase.votes() || !is_even(epoch)
}

/// Whether an epoch is before the monitor's own.
pub(crate) fn is_past(stored: &Stored<'_>, epoch: Epoch) -> bool
    ensures { result ≡ nat_lt epoch (epoch_of (readings_of stored.now)) }
{
    epoch.get() < stored.epoch().get()
}

/// Whether an epoch is after the monitor's own.
pub(crate) fn is_later(stored: &Stored<'_>, epoch: Epoch) -> bool
    ensures { result ≡ nat_lt (epoch_of (readings_of stored.now)) epoch }
{
    stored.epoch().get() < epoch.get()
}

/// Whether an epoch is the monitor's own or before it.
pub(crate) fn is_reached(stored: &Stored<'_>, epoch: Epoch) -> bool
    ensures { result ≡ nat_le epoch (epoch_of (readings_of stored.now)) }
{
    epoch.get() <= stored.epoch().get()
}

/// Whether an epoch is the one after the monitor's own.
pub(crate) fn is_next(stored: &Stored<'_>, epoch: Epoch) -> bool
    ensures { result ≡ (epoch == suc (epoch_of (readings_of stored.now))) }
{
    epoch.get() == stored.epoch().get() + 1
}

/// Whether a candidate of an earlier epoch makes the monitor call an election: the own epoch is that of a quorum, and
/// the candidate isn't in it.
pub(crate) fn is_left_out(stored: &Stored<'_>, view: &View, from: Rank) -> bool
    ensures { result ≡ (is_even (epoch_of (readings_of stored.now)) && not (has view.now.quorum from)) }
{
    is_even(stored.epoch()) && !view.quorum.has(from)
}

/// The table that a message has, or the own one if it has none.
pub(crate) fn table_or<'a>(table: &'a Option<ScoreTable>, own: &'a Scores) -> &'a Scores
    ensures { result.now ≡ table_or table.now own.now }
{
    match table {
        Some(table) => table.scores(),
        None => own,
    }
}

/// Whether a candidate may lead, and outranks this monitor.
pub(crate) fn is_better(me: &Me, table: &Scores, from: Rank) -> bool
    ensures { result ≡ (is_allowed me.now from && stands_before me.now table.now from me.now.member.rank) }
{
    me.rule.allows(from) && outranks(&me.rule, me.member.monitors, table, from, me.member.rank)
}

/// Whether the monitor may defer to a candidate: it deferred to nobody yet, or to this candidate, or to one that this
/// candidate outranks.
pub(crate) fn may_defer(me: &Me, table: &Scores, from: Rank, deferred: Option<Rank>) -> bool
    ensures { result ≡ may_defer me.now table.now from deferred }
{
    match deferred {
        None => true,
        Some(other) => {
            from == other || outranks(&me.rule, me.member.monitors, table, from, other)
        }
    }
}

/// Whether a monitor doesn't take part in its own epoch's election yet.
pub(crate) fn is_idle(state: &Elector) -> bool
    ensures { result ≡ (not (is_some state.now.deferred) && not state.now.candidate) }
{
    state.deferred.is_none() && !state.candidate
}

/// Whether these are all monitors of the map, and this monitor may lead.
pub(crate) fn leads_all(me: &Me, acked: RankSet) -> bool
    ensures { result ≡ (is_whole me.now acked && is_allowed me.now me.now.member.rank) }
{
    acked.count() == me.member.monitors && me.rule.allows(me.member.rank)
}

/// Whether the monitor wins when the election's time is over: it is a candidate that may lead, and a majority deferred
/// to it.
pub(crate) fn may_win(me: &Me, state: &Elector) -> bool
    ensures { result ≡ (state.now.candidate && is_allowed me.now me.now.member.rank &&
        is_majority me.now.member.monitors state.now.acked) }
{
    state.candidate && me.rule.allows(me.member.rank) && state.acked.is_majority(me.member.monitors)
}

/// Whether the monitor may follow a leader in a quorum: both are in it, and it is a majority.
pub(crate) fn may_follow(me: &Me, quorum: RankSet, leader: Rank) -> bool
    ensures { result ≡ (has quorum me.now.member.rank && has quorum leader &&
        is_majority me.now.member.monitors quorum) }
{
    quorum.has(me.member.rank) && quorum.has(leader) && quorum.is_majority(me.member.monitors)
}

/// The table that a monitor sends: its own if scores count, and otherwise none.
pub(crate) fn sent_table(
    alloc: Global,
    rule: &Rule,
    scores: &Scores,
) -> Result<Option<ScoreTable>, OutOfMemory>
    ensures { IfOk result (λ table. table ≡ sent_table rule.now scores.now) }
{
    match rule {
        Rule::Classic | Rule::Disallow(_) => Ok(None),
        Rule::Connectivity(_) => Ok(Some(ScoreTable::of(alloc, scores)?)),
    }
}
