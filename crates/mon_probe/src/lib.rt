//! How a monitor finds its place: it asks the others how far they are, and copies what it lacks, or calls an election.
#![tactic(auto)]

mod begin;
mod here;
mod inputs;
mod probes;
mod seen;

pub use begin::enter;
pub use inputs::step;
