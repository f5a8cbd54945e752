ghost use Rattle.std.specs.Prelude.{◌≡◌};
ghost use Rattle.election_rules.specs.Ranking.{outranks as is_before, score as score_by};

use crate::rule::Rule;
use crate::scores::Scores;
use mon_types::Rank;

/// Whether candidate `a` outranks candidate `b` among `n` monitors, by the table `scores`: an allowed one outranks one
/// that isn't, then, under connectivity only, the greater total score outranks, and then the lower rank.
pub fn outranks(rule: &Rule, n: u8, scores: &Scores, a: Rank, b: Rank) -> bool
    ensures { result ≡ is_before rule.now n scores.now a b }
{
    let allowed = rule.allows(b).cmp(&rule.allows(a));
    let score = score(rule, n, scores, b).cmp(&score(rule, n, scores, a));
    allowed.then(score).then(a.get().cmp(&b.get())).is_lt()
}

/// The score of `x` that counts under the rule.
fn score(rule: &Rule, n: u8, scores: &Scores, x: Rank) -> u64
    ensures { result ≡ score_by rule.now scores.now n x }
{
    match rule {
        Rule::Connectivity(_) => scores.total(n, x),
        Rule::Classic | Rule::Disallow(_) => 0,
    }
}
