//! Leases: for how long a monitor may answer reads by itself.
#![tactic(auto)]

mod lease;
mod show;

pub use lease::{LENGTH, Lease};
pub use show::readable;
