//! A link that sends a monitor's messages to others again until they are answered, and its answers when their question
//! arrives again.
#![tactic(auto)]

mod calls;
mod copies;
mod datagram;
mod laws;
mod measure;
mod note;
mod outbox;
mod resending;
mod rows;
mod shelf;

pub use copies::Copies;
pub use datagram::{Part, Piece, part_of};
pub use laws::{law_copies_kept, law_within};
pub use resending::Resending;
