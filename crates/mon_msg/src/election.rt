use election_rules::Scores;
use mon_types::{Moment, Rank, RankSet};

/// What a monitor remembers of elections.
#[derive(Clone, Copy, PartialEq, Eq)]
pub struct Elector {
    /// Whether it is a candidate.
    pub candidate: bool,
    /// Who deferred to it in this epoch, itself among them.
    pub acked: RankSet,
    /// The candidate to which it deferred in this epoch.
    pub deferred: Option<Rank>,
    /// What it knows of the connections among the monitors.
    pub scores: Scores,
    /// The monitors from which it heard since it last pinged.
    pub heard: RankSet,
    /// When it last pinged, or started.
    pub pinged: Moment,
}

/// What a monitor remembers while it probes.
#[derive(Clone, Copy, PartialEq, Eq)]
pub struct Prober {
    /// Itself, and the monitors that answered that they are in no quorum.
    pub outside: RankSet,
}
