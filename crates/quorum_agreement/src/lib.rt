//! The laws of the one log that all monitors of a map keep. Together they state that every run of the monitors is safe.
#![tactic(auto)]

mod laws;

pub use laws::{law_agree, law_fence, law_kept, law_marked, law_safe};
