//! What an elector reads at an input.

use mon_msg::{Elector, Me, View};
use mon_stored::Stored;
use mon_types::Moment;
use std::alloc::Global;

/// What a row of the protocol's table reads beside its message.
#[derive(Clone, Copy)]
pub(crate) struct Here<'a> {
    pub(crate) alloc: Global,
    pub(crate) stored: &'a Stored<'a>,
    pub(crate) me: &'a Me,
    pub(crate) view: &'a View,
    pub(crate) state: &'a Elector,
    pub(crate) time: Moment,
}
