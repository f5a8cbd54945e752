//! How many writes and syncs a store makes on a disk.

/// Every opening begins with a sync of the disk. It makes no other call on a disk without an open file, unless it
/// creates the store there.
pub const SYNC: u64 = 1;

/// Opening a disk that has an open file: the sync, and then a write of its first closed gate and the sync of that.
pub const OPENING: u64 = SYNC + 2;

/// A file is created by three writes, each with its sync: its header's gate is closed, what follows it is written, and the
/// gate is opened.
pub const CREATION: u64 = 6;

/// Opening a disk on which the store is created: the sync, and then the creation of its file.
pub const FIRST_OPENING: u64 = SYNC + CREATION;

/// A record is appended by two writes, each with its sync: it is written after a closed gate, and then that gate is opened.
pub const APPEND: u64 = 4;
