//! What the rows of a prober read.

use mon_msg::{Me, Prober, View};
use mon_stored::Stored;
use std::alloc::Global;

/// What a row reads besides its message.
#[derive(Clone, Copy)]
pub(crate) struct Here<'a> {
    pub(crate) alloc: Global,
    pub(crate) stored: &'a Stored<'a>,
    pub(crate) me: &'a Me,
    pub(crate) view: &'a View,
    pub(crate) state: &'a Prober,
}
