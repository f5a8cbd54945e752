//! How a command of the program ends: its statuses, their numbers and texts, and the status of each end of a part.
#![tactic(auto)]

mod status;

pub use status::Status;
