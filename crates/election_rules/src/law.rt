//! The laws of ranking and of tables.

ghost use Rattle.std.specs.Prelude.{ℕ, ◌<◌, ◌≤◌, ◌^◌};
ghost use Rattle.election_rules.specs.declared.rule.Rule.{Rule};
ghost use Rattle.election_rules.specs.declared.scores.Scores.{Scores};
ghost use Rattle.election_rules.specs.Form.{IsTable};
ghost use Rattle.election_rules.specs.Table.{start_scores, scored, raised, lowered, merged};
ghost use Rattle.election_rules.specs.Ranking.{outranks, IsStrictTotalOrder};

/// Under every rule and table, exactly one of two different ranks outranks the other, and there is no cycle of ranks of
/// which each outranks the next one.
pub fn law_total_order()
    ensures { (rule : Rule) (n : ℕ) (table : Scores) → IsStrictTotalOrder (outranks rule n table) }
{}

/// A table among `n` monitors begins well-formed, and stays so when it is updated or merged: no score is above the full
/// one, the counts stay within 2^62, and no row of a rank outside the map was ever reported.
pub fn law_table_stays()
    ensures begins { (n own boot : ℕ) → own < n → n ≤ 15 → boot ≤ 2 ^ 62 → IsTable n own (start_scores own boot) }
    ensures alive { (n own x seconds : ℕ) (table : Scores) → x < n → IsTable n own table → IsTable n own (scored (raised seconds) x table) }
    ensures dead { (n own x seconds : ℕ) (table : Scores) → x < n → IsTable n own table → IsTable n own (scored (lowered seconds) x table) }
    ensures merged { (n own other : ℕ) (table told : Scores) → IsTable n own table → IsTable n other told → IsTable n own (merged table told) }
{}
