use mon_types::Member;

/// How many bytes a file's header takes, with its gate.
pub const HEADER: u64 = 25;

/// How many bytes a record takes before its payload: its gate and its length.
pub const RECORD_HEAD: u64 = 5;

/// The place of the first record's payload.
pub const FIRST_PAYLOAD: u64 = HEADER + RECORD_HEAD;

/// Which of the two headers a file has. Both are read; only the second is written.
#[derive(Clone, Copy, PartialEq, Eq)]
pub enum Form {
    /// `CEPHMON1`, which is only read.
    First,
    /// `CEPHMON2`, which is read and written.
    Second,
}

/// What is remembered of a store's file: its owner, its generation and the place of its first closed gate. Its payloads
/// are on the disk alone.
#[derive(Clone, Copy, PartialEq, Eq)]
pub struct Journal {
    /// The monitor that owns the store.
    pub member: Member,
    /// 1 to 2^62. Of a store's two files the one with the greater generation is newer.
    pub generation: u64,
    /// The place of the first closed gate.
    pub next_gate: u64,
    /// Which header the file has.
    pub form: Form,
}
