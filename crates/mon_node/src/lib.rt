//! One monitor's serving loop. The core gets each timer when it is due, and what arrives over a link. The store keeps
//! what the core writes, and only then what the core sends goes out.
#![tactic(auto)]

mod end;
mod hearing;
mod keeping;
mod posting;
mod reading;
mod server;
mod serving;

pub use end::{NodeEnd, Served};
pub use hearing::TimedInput;
pub use serving::serve;
