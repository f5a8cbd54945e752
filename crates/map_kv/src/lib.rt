//! The key-value service's map: its incrementals, the step that each takes, and their bytes.
#![tactic(auto)]

mod ascending;
mod command;
mod encode;
mod inc;
mod map;
mod reading;

pub use command::{MOST_KV_MAP, MOST_KV_VALUE, make};
pub use inc::KvInc;
pub use map::KvMap;
pub use mon_bytes::Decode;
