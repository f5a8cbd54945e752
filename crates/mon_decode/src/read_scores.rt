//! Sets of ranks and tables of scores, read from left to right.

ghost use Rattle.std.specs.Prelude.{◌≡◌, ℕ, ◌≤◌, ◌<◌, ◌^◌, nat_le};
ghost use Rattle.election_rules.specs.Table.{full, start_row};
ghost use Rattle.mon_wire.specs.Message.Format.{Reads};
ghost use Rattle.mon_wire.specs.Message.Fields.{set_at};
ghost use Rattle.mon_wire.specs.Message.Parts.{optional};
ghost use Rattle.mon_wire.specs.Message.Scores.{padded_at, score_at, row, table};

use crate::fields::read_count;
use election_rules::{FULL, Row, Scores};
use mon_bytes::Cursor;
use mon_types::{Rank, RankSet};
use mon_wire::{MsgKind, MsgRefused, ScoreTable};
use std::alloc::Global;

/// Whether a bit of rank `n` or above is 1.
fn is_above(number: u16, n: u8) -> bool
    requires { n ≤ 15 }
    ensures { result ≡ nat_le (2 ^ n) number }
{
    u32::from(number) >= 1u32 << n
}

/// Reads a set of ranks below `n`.
#[tactic(auto, unfolding(mon_wire::specs::Message::Fields::set_at))]
pub(crate) fn read_set(n: u8, cursor: &mut Cursor<'_>) -> Result<RankSet, MsgRefused>
    requires { n ≤ 15 }
    ensures { Reads (λ x. x) result cursor.new (set_at n cursor.old) }
{
    let at = cursor.at();
    let number = cursor.take_u16()?;
    if is_above(number, n) {
        return Err(MsgRefused::At {
            at,
            kind: MsgKind::Value,
        });
    }
    Ok(RankSet::from_bits(number))
}

#[tactic(auto, unfolding(mon_wire::specs::Message::Scores::score_at))]
fn read_score(cursor: &mut Cursor<'_>) -> Result<u32, MsgRefused>
    ensures { Reads (λ x. x) result cursor.new (score_at cursor.old) }
{
    let at = cursor.at();
    let score = cursor.take_u32()?;
    if score > FULL {
        return Err(MsgRefused::At {
            at,
            kind: MsgKind::Value,
        });
    }
    Ok(score)
}

fn read_row_scores(n: u8, cursor: &mut Cursor<'_>) -> Result<[u32; 15], MsgRefused>
    requires { n ≤ 15 }
    ensures { Reads (λ x. x) result cursor.new (padded_at n full score_at cursor.old) }
{
    let mut scores = [FULL; 15];
    for x in 0..n {
        let score = read_score(cursor)?;
        scores[usize::from(x)] = score;
    }
    Ok(scores)
}

fn read_row(n: u8, cursor: &mut Cursor<'_>) -> Result<Row, MsgRefused>
    requires { n ≤ 15 }
    ensures { Reads (λ x. x) result cursor.new ((row n).read cursor.old) }
{
    let boot = read_count(cursor)?;
    let count = read_count(cursor)?;
    let scores = read_row_scores(n, cursor)?;
    Ok(Row {
        boot,
        count,
        scores,
    })
}

fn read_rows(n: u8, cursor: &mut Cursor<'_>) -> Result<[Row; 15], MsgRefused>
    requires { n ≤ 15 }
    ensures { Reads (λ x. x) result cursor.new (padded_at n (start_row 0) (row n).read cursor.old) }
{
    let mut rows = [Row::start(0); 15];
    for y in 0..n {
        let row = read_row(n, cursor)?;
        rows[usize::from(y)] = row;
    }
    Ok(rows)
}

fn read_scores(n: u8, own: Rank, cursor: &mut Cursor<'_>) -> Result<Scores, MsgRefused>
    requires { n ≤ 15 }
    ensures { Reads (λ x. x) result cursor.new ((table n own).read cursor.old) }
{
    let rows = read_rows(n, cursor)?;
    Ok(Scores { own, rows })
}

/// Reads a flag, and with 1 the sender's table.
pub(crate) fn read_table(
    alloc: Global,
    n: u8,
    own: Rank,
    cursor: &mut Cursor<'_>,
) -> Result<Option<ScoreTable>, MsgRefused>
    requires { n ≤ 15 }
    ensures { Reads (λ x. x) result cursor.new ((optional (table n own)).read cursor.old) }
{
    let at = cursor.at();
    match cursor.take_u8()? {
        0 => Ok(None),
        1 => {
            let scores = read_scores(n, own, cursor)?;
            Ok(Some(ScoreTable::of(alloc, &scores)?))
        }
        _ => Err(MsgRefused::At {
            at,
            kind: MsgKind::Value,
        }),
    }
}
