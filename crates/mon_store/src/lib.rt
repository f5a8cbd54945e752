//! A monitor's map on two disks. A crash at any point leaves it whole.
#![tactic(auto)]

mod apply;
mod checkpoint;
mod choice;
mod fold;
mod law;
mod open;
mod opening;
mod reading;
mod restart;
mod stop;
mod store;

pub use checkpoint::{CHECKPOINT, write_checkpoint};
pub use law::{law_checkpoints, law_stands};
pub use reading::read_checkpoint;
pub use restart::checkpoint_bytes;
pub use stop::{OpenRefused, OpenStop, StoreStop};
pub use store::Store;
