//! Sets of ranks, as text.

ghost use Rattle.std.specs.Prelude.{◌≡◌, ◌≤◌, ◌<◌, suc, ◌∷◌, ◌++◌, Bool, Option, List, ℕ, Ok, if◌then◌else◌, decimal, string_bytes, IfOk, OnOk, ◌&&◌, nat_lt, is_some};
ghost use Rattle.std.specs.Option.{option_copied};
ghost use Rattle.std.specs.Str.{bytes_eq};
ghost use Rattle.mon_types.specs.Ranks.{has, with_rank};
ghost use Rattle.schedule_text.specs.Fields.{Is};
ghost use Rattle.schedule_text.specs.Ranks.{separated, separator, ranks_text, is_next, after_next, below, set_of};

use crate::fields::cut;
use crate::refusal::ScheduleKind;
use itoa::Buffer;
use mon_types::{Rank, RankSet};
use std::alloc::AllocError;
use std::fmt::Write;

/// How many ranks there are.
const RANKS: u8 = 15;

fn is_next(rank: Rank, rest: Option<&[u8]>) -> bool
    ensures { result ≡ is_next rank (option_copied rest.entry) }
{
    match rest {
        None => false,
        Some(bytes) => {
            let (field, _) = cut(b',', bytes);
            let mut digits = Buffer::new();
            let rank = digits.format(rank.get());
            field == rank.as_bytes()
        }
    }
}

fn after_next(rest: Option<&[u8]>) -> Option<&[u8]>
    ensures { option_copied result ≡ after_next (option_copied rest.entry) }
{
    match rest {
        None => None,
        Some(bytes) => {
            let (_, rest) = cut(b',', bytes);
            rest
        }
    }
}

fn is_taken(monitors: u8, rank: Rank, rest: Option<&[u8]>) -> bool
    ensures { result ≡ (nat_lt rank monitors && is_next rank (option_copied rest.entry)) }
{
    rank.get() < monitors && is_next(rank, rest)
}

/// The set of ranks below `monitors` that all of the text names, in ascending order with commas between them.
pub fn set_of(monitors: u8, text: Option<&[u8]>) -> Result<RankSet, ScheduleKind>
    ensures { Is (λ set. set) result (set_of monitors (option_copied text.entry)) }
{
    let mut set = RankSet::empty();
    let mut rest = text;
    for n in 0..RANKS {
        let rank = Rank::known(n);
        if is_taken(monitors, rank, rest) {
            set = set.with(rank);
            rest = after_next(rest);
        }
    }
    match rest {
        None => Ok(set),
        Some(_) => Err(ScheduleKind::Word),
    }
}

fn is_below(monitors: u8, rank: Rank, set: RankSet) -> bool
    ensures { result ≡ (nat_lt rank monitors && has set rank) }
{
    rank.get() < monitors && set.has(rank)
}

/// The ranks of the set that are below `monitors`.
pub fn below(monitors: u8, set: RankSet) -> RankSet
    ensures { result ≡ below monitors set }
{
    let mut kept = RankSet::empty();
    for n in 0..RANKS {
        let rank = Rank::known(n);
        if is_below(monitors, rank, set) {
            kept = kept.with(rank);
        }
    }
    kept
}

/// Whether there is a rank in the set.
pub fn has_ranks(set: RankSet) -> bool
    ensures { result ≡ is_some (ranks_text set) }
{
    set.iter().next().is_some()
}

/// A rank of the set after its separator: the equals sign before the first, and a comma before each further one.
fn put_rank(out: &mut String, first: bool, rank: Rank) -> Result<(), AllocError>
    ensures { OnOk result (string_bytes out.new ≡ string_bytes out.old ++ separator first ∷ decimal rank) }
{
    out.push_str(if first { "=" } else { "," })?;
    let rank = rank.get();
    write!(out, "{rank}")
}

/// The ranks of the set in ascending order after an equals sign, with commas between them; nothing if there is none.
pub fn put_ranks(out: &mut String, set: RankSet) -> Result<(), AllocError>
    ensures { OnOk result (string_bytes out.new ≡ string_bytes out.old ++ separated 61 (ranks_text set)) }
{
    let mut first = true;
    for rank in set.iter() {
        put_rank(out, first, rank)?;
        first = false;
    }
    Ok(())
}
