//! Does what the arguments of a command line ask for: replays a schedule, runs one that is made, serves as a monitor,
//! follows a map as a client, or reads, compares and restores the stores of stopped monitors.
#![tactic(auto)]

mod further;
mod living;
mod node;
mod replay;
mod running;
mod summary;

pub use living::run_lives;
pub use node::Ended;
pub use run_status::Status;
pub use running::run;
