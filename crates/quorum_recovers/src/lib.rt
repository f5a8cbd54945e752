//! That after every run some majority can serve again, if it has room and a member that may lead.
#![tactic(auto)]

mod laws;

pub use laws::{law_near_majority_serves, law_recovers};
