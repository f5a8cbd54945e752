//! Clients' commands and reads: which commands wait at a leader, which clients wait at a peon, and what a peon
//! forwards.
#![tactic(auto)]

mod answers;
mod commands;
mod handed_on;
mod here;
mod inputs;
mod proposals;
mod reads;

pub use inputs::{step, step_owned};
pub use reads::unreadable;
