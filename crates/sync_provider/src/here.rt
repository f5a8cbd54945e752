//! What the rows of a provider read.

use mon_kv::Kv;
use mon_msg::{Me, Provider};
use std::alloc::Global;

/// What a row reads besides its message.
#[derive(Clone, Copy)]
pub(crate) struct Here<'a> {
    pub(crate) alloc: Global,
    pub(crate) kv: &'a Kv,
    pub(crate) me: &'a Me,
    pub(crate) state: &'a Provider,
}
