/// The longest value that is proposed, in bytes.
pub const MOST_PROPOSED: usize = 524_288;

/// The most versions that a step of a replay learns.
pub const MOST_REPLAYED: u64 = 64;

/// The most bytes of the values that a step of a replay learns, unless it learns one version alone.
pub const MOST_REPLAYED_BYTES: u64 = 524_288;

/// The most bytes of the incrementals that one reply to a client has, with four for each of them.
pub const MOST_SINCE_BYTES: usize = 524_288;

/// The most commands that wait at a leader, and the most sessions that wait at a peon.
pub const MOST_WAITING: u64 = 64;

/// A service keeps a full map at each version that is a multiple of this.
pub const FULL_EVERY: u64 = 25;

/// A service is trimmed when at least this many versions follow its first one.
pub const SERVICE_DUE: u64 = 75;

/// The least number of versions that follow the first one of a service after a trim.
pub const SERVICE_KEEPS: u64 = 50;

/// The most versions of a service that a trim erases.
pub const SERVICE_GOES: u64 = 25;

/// The log is trimmed when more than this many versions follow its first one.
pub const PAXOS_DUE: u64 = 750;

/// The least number of versions that follow the first one of the log after a trim.
pub const PAXOS_KEEPS: u64 = 500;

/// The most versions of the log that a trim erases.
pub const PAXOS_GOES: u64 = 500;
