//! The world of a schedule: its monitors, each with its map on two disks in memory, and all messages that they ever
//! sent.
#![tactic(auto)]

mod crash;
mod laws;
mod lines;
mod meeting;
mod monitor;
mod sending;
mod stop;
mod world;

pub use laws::law_traced;
pub use stop::WorldStop;
pub use world::World;
