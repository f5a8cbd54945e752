/// Why there are no devices, or no new life.
#[derive(Clone, Copy, Debug, PartialEq, Eq)]
pub enum NoDevices {
    /// The name of the quorum in the environment is too long, or not UTF-8.
    Name,
    /// The system gives no number of a life: neither random bits nor the time.
    NoLife,
    OutOfMemory,
}
