//! The laws of a log of values, however long it is: what is kept of it, and what is shown of what is kept.
#![tactic(auto)]

mod laws;

pub use laws::{law_proposed, law_shared, law_shown, law_windows};
