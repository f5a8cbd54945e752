//! That no command is committed more often than clients asked it. That a session which gets a reply other than Done has
//! a request that is not committed.
#![tactic(auto)]

mod laws;

pub use laws::{law_once, law_unmade};
