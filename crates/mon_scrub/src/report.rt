use mon_types::Member;

/// The shared entries under a prefix: their number, and the SHA-256 of their texts.
#[derive(Clone, Copy)]
pub struct Part {
    pub keys: u32,
    pub digest: [u8; 32],
}

/// What a monitor's store shares with the other monitors.
#[derive(Clone, Copy)]
pub struct Report {
    pub member: Member,
    /// The last committed version.
    pub last: u64,
    /// Whether a full synchronization is in progress.
    pub marked: bool,
    /// The parts of `kv`, `logm` and `paxos`, in this order.
    pub parts: [Part; 3],
}
