//! Reports of what a monitor's store shares with the other monitors, and the comparison of two reports.
#![tactic(auto)]

mod comparing;
mod laws;
mod making;
mod printing;
mod reading;
mod refusal;
mod report;
mod tally;
mod unread;

pub use comparing::compare;
pub use laws::{law_reports, law_scrub};
pub use making::scrub;
pub use printing::print;
pub use reading::parse;
pub use refusal::ReportRefused;
pub use report::{Part, Report};
