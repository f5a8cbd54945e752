//! Schedules of events, as text.
#![tactic(auto)]

mod display;
mod event;
mod fields;
mod header;
mod length;
mod line;
mod printer;
mod ranks;
mod reader;
mod refusal;
mod request;
mod schedule;
mod words;

pub use event::{Event, Plain};
pub use fields::{cut, number_of};
pub use header::rule_of;
pub use printer::{header_line, print};
pub use ranks::{has_ranks, put_ranks};
pub use reader::parse;
pub use refusal::{ScheduleKind, ScheduleRefused};
pub use schedule::Schedule;
pub use words::service_word;
