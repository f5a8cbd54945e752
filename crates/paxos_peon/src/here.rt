//! What the rows of a peon read.

use mon_msg::{Me, Peon};
use mon_stored::Stored;
use mon_types::Moment;
use std::alloc::Global;

/// What a row reads besides its message.
#[derive(Clone, Copy)]
pub(crate) struct Here<'a> {
    pub(crate) alloc: Global,
    pub(crate) stored: &'a Stored<'a>,
    pub(crate) me: &'a Me,
    pub(crate) state: &'a Peon,
    pub(crate) time: Moment,
}
