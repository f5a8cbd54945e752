//! The outside of the program: where bytes and datagrams come from and go to, and what time it is; in memory, and of the
//! system.
#![tactic(auto)]

mod clients;
mod clock;
mod edge;
mod link;
mod lives;
mod memory;
mod memory_link;
mod outside;
mod passing;
mod run_clock;
mod udp;
mod whole;

pub use clock::{Clock, ListClock};
pub use edge::{StdinSource, StdoutSink};
pub use link::{Got, Keeps, Link, Outgoing, Peer};
pub use lives::{Lives, NoLife};
pub use memory::{MemorySink, MemorySource};
pub use memory_link::MemoryLink;
pub use outside::{Sink, Source};
pub use run_clock::RunClock;
pub use udp::{Address, UdpLink};
pub use whole::{read_all, write_all};
