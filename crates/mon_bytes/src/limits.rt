/// The most bytes of a message between monitors, or between a monitor and a client.
pub const MOST_MESSAGE: usize = 1_048_576;

/// The most bytes of a key.
pub const MOST_NAME: usize = 255;

/// The most bytes of a prefix.
pub const MOST_PREFIX: usize = 32;
