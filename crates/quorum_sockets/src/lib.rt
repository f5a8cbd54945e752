//! The laws of processes over sockets: what their sockets carry is all that the laws of a network presume, and what a
//! monitor's status answers show of its process.
#![tactic(auto)]

mod law;
mod status;

pub use law::law_sockets;
pub use status::law_status;
