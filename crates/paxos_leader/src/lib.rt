//! A monitor that leads a quorum: it collects what its members accepted, gives leases, and begins and commits values.
#![tactic(auto)]

mod acts;
mod answers;
mod catch_up;
mod collecting;
mod draft;
mod inputs;
mod seen;
mod sets;
mod timers;
mod values;

pub use inputs::{begin, begin_owned, enter, step, step_owned};
