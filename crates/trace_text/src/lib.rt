//! The lines of a trace, which say what the events of a schedule did.
#![tactic(auto)]

mod sent;
mod shown;
mod step;
mod trace;
mod words;

pub use schedule_text::header_line;
pub use shown::put_shown;
pub use step::{Numbered, Outcome, Replied, Replies, StateLine, StepLine};
pub use trace::{end_line, trace_line};
