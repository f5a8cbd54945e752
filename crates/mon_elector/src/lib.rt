//! How a monitor takes part in elections: to whom it defers, when it calls one, when it wins, and whom it follows; and
//! how it measures its connections.
#![tactic(auto)]

mod acks;
mod calls;
mod here;
mod inputs;
mod pings;
mod proposals;
mod seen;
mod steps;
mod victories;

pub use calls::enter;
pub use inputs::step;
