//! What a monitor keeps: a map from pairs of prefix and key to bytes, held as one ordered tree for each prefix.
#![tactic(auto)]

mod areas;
mod balance;
mod chunk;
mod decimal;
mod entry_ref;
mod kv;
mod local;
mod next;
mod readers;
mod tree;

pub use chunk::KeyRun;
pub use entry_ref::EntryRef;
pub use kv::{Kv, LEAST_LENGTH, MOST_SIZE, number_of};
pub use local::is_local;
pub use readers::Pending;
