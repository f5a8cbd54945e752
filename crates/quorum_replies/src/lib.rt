//! That a monitor replies to a session no more often than the session asked it.
#![tactic(auto)]

mod laws;

pub use laws::law_replies;
