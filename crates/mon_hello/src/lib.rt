//! What names a quorum, the datagrams by which its monitors greet one another, and a link that sends and takes them.
#![tactic(auto)]

mod encode;
mod greeting;
mod heard;
mod hello;
mod identity;
mod law;
mod lines;
mod name;
mod own;
mod reading;
mod sending;

pub use greeting::Greeting;
pub use heard::{Heard, Known};
pub use hello::{Hello, VERSION};
pub use identity::Identity;
pub use law::{law_hello, law_identity};
pub use lines::Say;
pub use name::{MOST_QUORUM_NAME, QuorumName};
pub use own::Own;
