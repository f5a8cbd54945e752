use election_rules::*;
use mon_types::{Rank, RankSet};
use std::test::Fail;

fn rank(r: u8) -> Result<Rank, Fail> {
    Ok(Rank::new(r).ok_or("a rank")?)
}

/// What the monitor of rank 2 knows in its seventh start, but for one score of its own.
fn knowing(score: u32) -> Result<Scores, Fail> {
    let mut scores = Scores::start(rank(2)?, 7);
    scores.rows[2].scores[0] = score;
    Ok(scores)
}

/// A score, whether its monitor is alive for this many seconds, and the score then.
const CHANGES: [(u32, bool, u64, u32); 13] = [
    (1_000_000u32, false, 0u64, 1_000_000u32),
    (1_000_000, false, 1, 999_977),
    (1_000_000, false, 21_600, 500_000),
    (1_000_000, false, 43_200, 0),
    (1_000_000, false, 86_401, 0),
    (500_000, false, 21_600, 125_000),
    (0, false, u64::MAX, 0),
    (500_000, true, 43_200, 750_000),
    (500_000, true, 86_400, 1_000_000),
    (500_000, true, 86_401, 1_000_000),
    (0, true, 1, 11),
    (999_977, true, 43_200, 999_988),
    (1_000_000, true, u64::MAX, 1_000_000),
];

/// Whether a score becomes another one as this many seconds go by, and nothing but the count changes.
fn becomes(before: u32, is_alive: bool, seconds: u64, after: u32) -> Result<bool, Fail> {
    let mut scores = knowing(before)?;
    if is_alive {
        scores.alive(rank(0)?, seconds);
    } else {
        scores.dead(rank(0)?, seconds);
    }
    let mut expected = knowing(after)?;
    expected.rows[2].count = 1;
    Ok(scores == expected)
}

#[test]
fn scores_fall_and_rise(rt: HostRuntime) -> Result<(), Fail> {
    for (before, is_alive, seconds, after) in &CHANGES {
        let becomes = becomes(*before, *is_alive, *seconds, *after)?;
        assert!(rt; becomes, "{before} after {seconds}");
    }
    Ok(())
}

/// A table in which the monitors of ranks 1 and 2 give rank 0 this score, and every other score is full.
fn table(score: u32) -> Result<Scores, Fail> {
    let mut scores = Scores::start(rank(1)?, 1);
    scores.rows[1].scores[0] = score;
    scores.rows[2].scores[0] = score;
    Ok(scores)
}

/// The total of a rank after rank 0 is given half a score.
fn total(of: u8) -> Result<u64, Fail> {
    let of = rank(of)?;
    Ok(table(500_000)?.total(3, of))
}

#[test]
fn a_total_is_what_the_others_give(rt: HostRuntime) -> Result<(), Fail> {
    assert!(rt; [total(0)?, total(1)?, total(2)?] == [1_000_000, 2_000_000, 2_000_000]);
    Ok(())
}

/// Whether one rank is before another one, and not the other way round, if rank 0 is given this score.
fn is_before(rule: &Rule, score: u32, first: u8, then: u8) -> Result<bool, Fail> {
    let (first, then) = (rank(first)?, rank(then)?);
    let scores = table(score)?;
    Ok(outranks(rule, 3, &scores, first, then) && !outranks(rule, 3, &scores, then, first))
}

#[test]
fn the_higher_total_is_first_under_connectivity_alone(rt: HostRuntime) -> Result<(), Fail> {
    let (none, one) = (RankSet::empty(), RankSet::from_bits(2));
    let rows = [
        (Rule::Connectivity(none), 500_000u32, 1u8, 0u8),
        (Rule::Connectivity(none), 500_000, 1, 2),
        (Rule::Connectivity(one), 500_000, 2, 0),
        (Rule::Connectivity(one), 500_000, 0, 1),
        (Rule::Classic, 500_000, 0, 1),
        (Rule::Connectivity(none), 1_000_000, 0, 1),
    ];
    for (rule, score, first, then) in &rows {
        let is_before = is_before(rule, *score, *first, *then)?;
        assert!(rt; is_before, "{rule:?} {score}: {first} before {then}");
    }
    Ok(())
}
