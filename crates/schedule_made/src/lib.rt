//! Schedules that are made from a number.
#![tactic(auto)]

mod draws;
mod events;
mod laws;
mod made_events;
mod rounds;
mod whole;

pub use laws::law_made;
pub use whole::made;
