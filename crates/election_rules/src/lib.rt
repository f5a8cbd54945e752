//! How the monitors of a quorum rank one another in an election, and how each scores its connections to the others.
#![tactic(auto)]

mod law;
mod ranking;
mod row;
mod rule;
mod scores;

pub use law::{law_table_stays, law_total_order};
pub use ranking::outranks;
pub use row::{FULL, HALF_LIFE, Row};
pub use rule::Rule;
pub use scores::Scores;
