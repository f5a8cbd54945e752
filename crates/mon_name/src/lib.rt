//! Two links, each over another link. The datagrams of `Named` name a quorum, and its pieces of long messages have the
//! number of a life. `Awake` is closed after the machine stood still.
#![tactic(auto)]

mod awake;
mod boot_clock;
mod frame;
mod gaps;
mod law;
mod life;
mod named;
mod renumber;

pub use awake::Awake;
pub use boot_clock::BootClock;
pub use frame::framed;
pub use gaps::Gaps;
pub use law::{law_frame, law_lives_apart, law_renumber};
pub use life::{Life, OfLife, life_of, new_life};
pub use named::Named;
