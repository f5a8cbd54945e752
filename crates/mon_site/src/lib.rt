//! A monitor's store on two disks in memory. Within an event at most one of them fails.
#![tactic(auto)]

mod disks;
mod finishing;
mod injected;
mod law;
mod opening;
mod resting;
mod running;

pub use disks::{inject_one, settle_both};
pub use finishing::{Ended, finish};
pub use injected::InjectedFault;
pub use law::law_calls;
pub use opening::{Begun, open};
pub use resting::{empty_disks, opening_count};
pub use running::{apply, close, start};
