//! What the roles of a monitor read of its store, before and after changes that aren't made yet, and transactions in
//! which each key is put once.
#![tactic(auto)]

mod epochs;
mod here;
mod join;
mod records;
mod stored;

pub use epochs::epoch_after;
pub use here::Here;
pub use join::joined;
pub use records::{MOST_PROPOSED, Run};
pub use stored::Stored;
