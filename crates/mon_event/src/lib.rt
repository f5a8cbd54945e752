//! Of what one monitor's core is made: what it remembers, what its roles see of one another, and how their plans are
//! carried out in an event.
#![tactic(auto)]

mod event;
mod role;
mod role_state;
mod seen;
mod state;
mod timers;

pub use event::Event;
pub use role::{Role, hearer, woken_by};
pub use role_state::RoleState;
pub use seen::{is_heard, scores_count, view};
pub use state::State;
pub use timers::Timers;
