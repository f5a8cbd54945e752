//! The records of a store. Each is written after a closed commit byte (a gate), and is durable before that gate is opened.
#![tactic(auto)]

mod append;
mod encoded;
mod journal;
mod law;
mod making;
mod opening;
mod pieces;
mod reader;
mod reading;
mod records;
mod step;
mod stop;

pub use journal::{FIRST_PAYLOAD, Form, HEADER, Journal, RECORD_HEAD};
pub use law::law_written;
pub use making::{create, restart};
pub use opening::{Opened, open};
pub use reader::Reader;
pub use reading::read_owner;
pub use stop::JournalStop;
