//! One monitor, joined from its seven roles: what it writes, sends and remembers at each input.
#![tactic(auto)]

mod acts;
mod inputs;
mod joining;
mod monitor;
mod names;
mod reaction;
mod roles;
mod showing;

pub use mon_msg::input::Input;
pub use monitor::Core;
pub use reaction::Reaction;
/// Why a core doesn't react: the reason for which a role has no plan. The core isn't used again.
pub use mon_msg::RoleStop as CoreStop;
