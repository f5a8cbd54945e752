//! The laws of a copy of another monitor's store that is made while the other's log goes on.
#![tactic(auto)]

mod laws;

pub use laws::{law_caught_up, law_learned, law_synchronized};
