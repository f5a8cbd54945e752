//! Byte texts with their bounds, and the reading and writing of little-endian bytes. Formats, and the decoding of bytes
//! by them. The commands of the services.
#![tactic(auto)]

mod command;
mod cursor;
mod decode;
mod entry;
mod form;
mod items;
mod law;
mod limits;
mod memory;
mod out;
mod texts;
mod word;

pub use command::{Command, CommandRefused, MapRefused};
pub use cursor::{Cursor, Short};
pub use decode::Decode;
pub use entry::{Entry, KeyPlace};
pub use form::{read_text, write_count, write_text};
pub use items::{Items, TryCopy};
pub use law::law_little_endian;
pub use limits::{MOST_MESSAGE, MOST_NAME, MOST_PREFIX};
pub use memory::OutOfMemory;
pub use out::Out;
pub use texts::{Bytes, Text};
pub use word::{Name, Prefix, Word};
