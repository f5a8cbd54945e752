//! The laws of the answers that processes on a network give: in which order reads and writes appear, within an epoch
//! and over all epochs, what a refusal means, which request an answer is to, and which copy a client holds that follows
//! the processes.
#![tactic(auto)]

mod fresh;
mod laws;
mod marked;
mod one_request;

pub use fresh::{law_fresh, law_writes};
pub use laws::{law_answers, law_followers};
pub use marked::law_marked_map;
pub use one_request::law_one_request;
