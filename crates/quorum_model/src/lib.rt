//! The model of all monitors of a map: which events can happen, what each of them does, and which runs are safe. The
//! laws state what each store kept, and that each entry of a safe run's log is a value.
#![tactic(auto)]

mod calls;
mod laws;

pub use calls::{APPEND, CREATION, FIRST_OPENING, OPENING, SYNC};
pub use laws::{law_log, law_written};
pub use log_model::{law_proposed, law_shared, law_shown, law_windows};
