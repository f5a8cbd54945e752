//! Messages among monitors and their clients, their encoding and its length. The sessions, requests and replies of
//! clients, the phases and timers of a monitor. Bytes are read by the crate above, `mon_decode`.
#![tactic(auto)]

mod body;
mod copy_body;
mod encode;
mod kind;
mod laws;
mod length;
mod message;
mod parts;
mod phase;
mod refusal;
mod reply;
mod request;
mod score_table;
mod write_bodies;
mod write_fields;
mod write_lists;
mod write_parts;
mod write_reply;

pub use body::Body;
pub use kind::Kind;
pub use laws::law_length;
pub use length::{entry_len, place_len};
pub use message::Message;
pub use mon_bytes::{Items, MOST_MESSAGE, TryCopy};
pub use parts::{Cookie, Place, Told};
pub use phase::{Phase, Timer};
pub use refusal::{MsgKind, MsgRefused};
pub use reply::{Reply, ShownMap};
pub use request::{Request, Service, Session};
pub use score_table::ScoreTable;
pub use write_lists::MOST_ITEMS;
