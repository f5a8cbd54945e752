//! A monitor from which others synchronize: it gives them cookies, and what follows the places that they have
//! reached.
#![tactic(auto)]

mod chunk;
mod cookies;
mod entries;
mod here;
mod inputs;

pub use inputs::step;
