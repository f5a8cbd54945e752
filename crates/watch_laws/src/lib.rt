//! Laws: what a link that watches shows of its monitor is true.
#![tactic(auto)]

mod laws;

pub use laws::{law_lag, law_watch};
