//! What a service keeps: the value that a command makes, the map that is read, what changed it, and a cache of the
//! maps.
#![tactic(auto)]

mod cache;
mod changed;
mod made;
pub mod mon_trim;
mod outline;
mod progress;
mod proposal;
mod reading;
mod room;
mod row;
mod rules;
mod scan;
mod step;

pub use cache::Cache;
pub use changed::{shown, since};
pub use proposal::{service_of, value};
pub use reading::read;
pub use row::last_version;
