//! The parts of the plans of a monitor's roles: what a plan writes, sends and arms.
#![tactic(auto)]

mod plans;
mod sends;
mod writers;

pub use plans::{armed, disarmed, message, one, planned, sending, stay, writing};
pub use sends::{answer, members, others, send_each};
pub use writers::{
    learn, put_boot, put_copies, put_epoch, put_last, put_learned, put_mark, put_numbers,
    put_promise, put_records, put_unmark, put_vote,
};
