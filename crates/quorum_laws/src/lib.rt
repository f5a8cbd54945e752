//! The laws of elections, promises, accepted values, leases and commands: for any monitors, up to fifteen under any rule, and every
//! list of events, crashes among them.
#![tactic(auto)]

mod laws;

pub use laws::{
    law_commands, law_elections, law_held, law_leases, law_one_active, law_promises, law_values,
};
