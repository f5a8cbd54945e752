//! How far the monitors of a majority are from the whole log, in every run.
#![tactic(auto)]

mod laws;

pub use laws::law_majority_is_near;
