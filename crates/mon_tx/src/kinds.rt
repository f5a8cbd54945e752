//! The kinds of changes: the byte with which a change's encoding begins.

/// A put.
pub(crate) const PUT: u8 = 1;

/// An erasure of a key.
pub(crate) const ERASE: u8 = 2;

/// An erasure of all keys of a prefix.
pub(crate) const ERASE_PREFIX: u8 = 3;

/// An erasure of a range of versions.
pub(crate) const ERASE_RANGE: u8 = 4;
