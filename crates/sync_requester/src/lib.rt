//! A monitor that fell behind and takes another's store: a whole copy with the versions committed meanwhile, or the
//! versions that it lacks.
#![tactic(auto)]

mod chunks;
mod cookies;
mod entering;
mod inputs;
mod places;
mod replay;

pub use entering::enter;
pub use inputs::step;
