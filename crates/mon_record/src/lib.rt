//! A record of what a monitor is given. A link and a clock pass everything on unchanged, and append it to a sink.
#![tactic(auto)]

mod clock;
mod entry;
mod link;
mod readings;
mod recorder;
mod tape;

pub use clock::Noting;
pub use entry::{Front, HEAD};
pub use link::Recording;
pub use readings::Readings;
pub use recorder::{LifeSink, Recorder};
pub use tape::Tape;
