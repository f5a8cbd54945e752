//! What the links of a monitor do together.
#![tactic(auto)]

mod law;

pub use law::{law_new_stack, law_stack};
