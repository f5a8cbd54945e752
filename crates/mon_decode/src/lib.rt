//! Messages from their bytes. No crate of the protocol depends on this one: only what receives datagrams decodes
//! them.
#![tactic(auto)]

mod fields;
mod header;
mod read_body;
mod read_client;
mod read_lists;
mod read_parts;
mod read_scores;
mod reading;

pub use header::{Header, kind_byte, law_header, read_header, same_kind};
pub use mon_wire::{MsgKind, MsgRefused};
pub use reading::{decode, kind_of};
