//! The cluster log's map: its entries, the step that each takes, and their bytes.
#![tactic(auto)]

mod command;
mod encode;
mod inc;
mod map;
mod reading;
mod surplus;

pub use command::{MOST_TEXT, make};
pub use inc::LogInc;
pub use map::LogMap;
pub use mon_bytes::Decode;
pub use surplus::{MOST_ENTRIES, MOST_LOG_MAP};
