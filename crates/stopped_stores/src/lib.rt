//! The commands on the store of a stopped monitor: the texts of its map, an import, and the comparison of two reports.
#![tactic(auto)]

mod comparing;
mod end;
mod importing;
mod writing;

pub use comparing::compare_reports;
pub use end::{ToolEnd, Worked};
pub use importing::import_export;
pub use writing::{StoreText, write_text};
