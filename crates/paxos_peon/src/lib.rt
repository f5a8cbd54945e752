//! A monitor that follows a leader: it reports what it accepted, accepts values, learns what is committed, and holds
//! a lease.
#![tactic(auto)]

mod answer;
mod collecting;
mod here;
mod inputs;
mod leasing;
mod values;

pub use inputs::step;
