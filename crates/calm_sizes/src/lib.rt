//! How large stores get: a store with a log's versions isn't full if each of the monitor's own values is short.
#![tactic(auto)]

mod laws;

pub use laws::{law_goes_on, law_never_full};
