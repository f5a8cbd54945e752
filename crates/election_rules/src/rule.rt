ghost use Rattle.std.specs.Prelude.{◌≡◌};
ghost use Rattle.election_rules.specs.Ranking.{allows};

use mon_types::{Rank, RankSet};

/// How an election ranks its candidates. Under each rule the lower rank decides last.
#[derive(Clone, Copy, Debug, PartialEq, Eq)]
pub enum Rule {
    /// By rank alone.
    Classic,
    /// By rank; the monitors of the set never lead.
    Disallow(RankSet),
    /// By connectivity score and then by rank; the monitors of the set never lead.
    Connectivity(RankSet),
}

impl Rule {
    /// Whether the monitor of this rank may lead.
    pub fn allows(&self, rank: Rank) -> bool
        ensures { result ≡ allows self.now rank }
    {
        match self {
            Rule::Classic => true,
            Rule::Disallow(ranks) | Rule::Connectivity(ranks) => !ranks.has(rank),
        }
    }
}
