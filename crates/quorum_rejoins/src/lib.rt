//! That any majority that has room can catch up to within 11 versions of the log. It can serve again if a member may
//! lead and none lacks from 2 to 11 versions.
#![tactic(auto)]

mod laws;

pub use laws::{law_far_majority_serves, law_majority_catches_up};
