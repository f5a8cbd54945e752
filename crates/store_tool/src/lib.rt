//! Tools for the store of a stopped monitor: an export of its map, a store made from an export, and dumps of what the
//! map holds.
#![tactic(auto)]

mod dump;
mod exporting;
mod importing;
mod law;
mod making;
mod reading;
mod refusal;

pub use dump::{dump_keys, dump_paxos};
pub use exporting::{MOST_EXPORT, export};
pub use importing::{ImportEnd, Imported, import};
pub use law::law_exports;
pub use reading::read_export;
pub use refusal::ExportRefused;
