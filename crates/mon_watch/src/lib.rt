//! What can be seen of a running monitor: a link and disks that change nothing, note what goes over them, and say it in
//! lines and to clients that ask.
#![tactic(auto)]

mod contact;
mod journal;
mod kinds;
mod lines;
mod notes;
mod ration;
mod report;
mod request;
mod seen;
mod timed;
mod times;
mod traffic;
mod watched;

pub use contact::{Contact, SILENCE};
pub use journal::{Journal, Shared};
pub use lines::LineReceiver;
pub use notes::Notes;
pub use ration::Ration;
pub use report::{Report, report_text};
pub use request::{MARK, read_status_request};
pub use seen::{Seen, Victory};
pub use timed::Timed;
pub use times::{DiskTimes, SLOW};
pub use traffic::Traffic;
pub use watched::{Watch, Watched};
