//! Monitors measure their connections.

ghost use Rattle.std.specs.Prelude.{◌≡◌, ◌-◌, ◌/◌, if◌then◌else◌, IfOk, Ok};
ghost use Rattle.election_rules.specs.Table.{raised, lowered, scored};
ghost use Rattle.mon_msg.specs.Protocol.Pings.{hear_ping, hear_ping_reply, ping, scores_after, measure, with_heard};
ghost use Rattle.mon_plan.specs.Leaves.{Leaves};
ghost use Rattle.mon_elector.specs.Rows.{ByRow};

use crate::here::Here;
use crate::seen::sent_table;
use crate::steps::{plan_until, send_to_others};
use election_rules::Scores;
use mon_bytes::OutOfMemory;
use mon_msg::{Body, Elector, Plan, RoleStop, ScoreTable, Timer};
use mon_plan::{armed, message, one, others, sending, stay};
use mon_tx::Transaction;
use mon_types::{Rank, RankSet};

/// The elector's state once it heard from a monitor: the monitor's table is merged into its own.
fn with_heard(state: &Elector, from: Rank, table: &Scores) -> Elector
    ensures { result ≡ with_heard from table.now state.now }
{
    let mut scores = state.scores;
    scores.merge(table);
    Elector {
        scores,
        heard: state.heard.with(from),
        ..*state
    }
}

/// Another monitor pings. A ping with a table is answered with the own table.
pub(crate) fn hear_ping(
    here: &Here<'_>,
    from: Rank,
    table: &Option<ScoreTable>,
) -> Result<Plan<Elector>, RoleStop>
    ensures plans { ByRow here.now (hear_ping here.now.me.now from table.now) result }
    ensures leaves { IfOk result (λ p. Leaves here.now.view.now.phase p.next p.tx) }
{
    let Some(table) = table else {
        return Ok(stay(here.alloc, *here.state));
    };
    let heard = with_heard(here.state, from, table.scores());
    let table = sent_table(here.alloc, &here.me.rule, &heard.scores)?;
    let body = Body::PingReply { table };
    let sent = message(here.me, here.stored.epoch(), body, from);
    let out = one(here.alloc, sent)?;
    Ok(sending(here.alloc, out, heard))
}

/// Another monitor answers a ping. A reply without a table is dropped.
pub(crate) fn hear_ping_reply(
    here: &Here<'_>,
    from: Rank,
    table: &Option<ScoreTable>,
) -> Plan<Elector>
    ensures plans { ByRow here.now (hear_ping_reply from table.now) (Ok result) }
    ensures leaves { Leaves here.now.view.now.phase result.next result.tx }
{
    match table {
        None => stay(here.alloc, *here.state),
        Some(table) => stay(here.alloc, with_heard(here.state, from, table.scores())),
    }
}

/// Raises the score of the connection to a monitor by this many seconds if it was heard, and lowers it otherwise.
fn count_time(scores: &mut Scores, is_heard: bool, rank: Rank, seconds: u64)
    ensures { scores.new ≡ scored (if is_heard then raised seconds else lowered seconds) rank scores.old }
{
    if is_heard {
        scores.alive(rank, seconds);
    } else {
        scores.dead(rank, seconds);
    }
}

/// The table after `seconds` seconds in which those of `ranks` that are in `heard` were heard.
#[tactic(auto, using(crate::proofs::PingLaws::scores_next, crate::proofs::PingLaws::scores_end))]
fn scores_after(seconds: u64, heard: RankSet, ranks: &[Rank], scores: &Scores) -> Scores
    ensures { result ≡ scores_after seconds heard ranks.now scores.now }
{
    let mut after = *scores;
    for rank in ranks {
        count_time(&mut after, heard.has(*rank), *rank, seconds);
    }
    after
}

/// The elector's state at a ping. Its scores count the time since the last ping, and from now on nobody was heard.
fn measured(here: &Here<'_>) -> Result<Elector, OutOfMemory>
    ensures { IfOk result (λ elector. elector ≡ measure here.now.me.now here.now.time here.now.state.now) }
{
    let state = here.state;
    let ranks = others(here.alloc, here.me)?;
    let seconds = here.time.get().saturating_sub(state.pinged.get()) / 1000;
    let scores = scores_after(seconds, state.heard, ranks.as_slice(), &state.scores);
    Ok(Elector {
        scores,
        heard: RankSet::empty(),
        pinged: here.time,
        ..*state
    })
}

/// The timer `Ping` fires: the monitor updates its scores, pings all others, and arms the timer again.
pub(crate) fn ping(here: &Here<'_>) -> Result<Plan<Elector>, RoleStop>
    ensures plans { ByRow here.now (ping here.now.me.now here.now.time) result }
    ensures leaves { IfOk result (λ p. Leaves here.now.view.now.phase p.next p.tx) }
{
    let elector = measured(here)?;
    let table = sent_table(here.alloc, &here.me.rule, &elector.scores)?;
    let body = Body::Ping { table };
    let out = send_to_others(here.alloc, here.me, here.stored.epoch(), body)?;
    let tx = Transaction::new(here.alloc);
    let arming = armed(here.time, Timer::Ping);
    Ok(plan_until(here.alloc, tx, out, elector, arming)?)
}
