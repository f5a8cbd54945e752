//! How long what a monitor writes and sends is: never too long.
#![tactic(auto)]

mod laws;

pub use laws::{law_message_fits, law_reaction_fits};
