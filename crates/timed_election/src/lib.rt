//! That a majority of which no member leads elects one in time, in a run whose messages and timers are punctual.
#![tactic(auto)]

mod laws;

pub use laws::{
    law_election_ends, law_election_leaves_votes, law_members_join, law_parted_members_join,
    law_probing_ends,
};
