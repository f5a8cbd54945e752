use election_rules::Rule;
use mon_types::{Member, Rank, RankSet};
use mon_wire::Phase;

/// Who a monitor is, and by which rule its map elects.
#[derive(Clone, Copy, PartialEq, Eq)]
pub struct Me {
    pub member: Member,
    pub rule: Rule,
}

/// What a role reads of the monitor's other roles.
#[derive(Clone, Copy, PartialEq, Eq)]
pub struct View {
    /// The phase of the monitor.
    pub phase: Phase,
    /// The leader of its quorum; its own rank if it is in none.
    pub leader: Rank,
    /// Its quorum; the empty set if it is in none.
    pub quorum: RankSet,
    /// Whether its lease is valid, or its map has no other monitor.
    pub standing: bool,
    /// Whether its last version may be read.
    pub readable: bool,
}
