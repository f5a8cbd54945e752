//! That a majority that is near the whole log and ready to serve can elect a leader, whatever the run was before.
#![tactic(auto)]

mod laws;

pub use laws::law_near_majority_elects;
