//! What is counted of a disk's calls.

ghost use Rattle.std.specs.Prelude.{◌≡◌, ◌≤◌};
ghost use Rattle.mon_watch.specs.Times.{after_length, after_read, after_sync, after_write, bucket_of, counted_in, no_times};

/// The least time of a slow sync, in milliseconds.
pub const SLOW: u64 = 1000;

/// How many calls a disk got, of how many bytes, and how long its syncs took, in milliseconds. Calls that failed count
/// too. The counts and sums saturate.
#[derive(Clone, Copy)]
pub struct DiskTimes {
    pub syncs: u64,
    pub total: u64,
    pub greatest: u64,
    /// How many syncs took less than 1, 2, 4, .. 16,384 ms and no less than the bound before, and how many took 16,384
    /// ms or longer.
    pub buckets: [u64; 16],
    /// How many syncs took a second or longer, and how long the last one of them took.
    pub slow: u64,
    pub last_slow: u64,
    pub writes: u64,
    pub written: u64,
    pub reads: u64,
    pub fetched: u64,
    /// The length of the disk in bytes, as far as the calls that succeeded show.
    pub length: u64,
}

/// The bucket of a time in milliseconds.
fn bucket_of(time: u64) -> usize
    ensures bucket { result ≡ bucket_of time }
    ensures most { result ≤ 15 }
{
    let digits = 64 - time.leading_zeros();
    digits.min(15) as usize
}

fn counted_in(bucket: usize, buckets: [u64; 16]) -> [u64; 16]
    requires { bucket ≤ 15 }
    ensures { result ≡ counted_in bucket buckets }
{
    let mut counted = buckets;
    counted[bucket] = buckets[bucket].saturating_add(1);
    counted
}

impl DiskTimes {
    /// The counts before any call.
    pub fn new() -> DiskTimes
        ensures { result ≡ no_times }
    {
        DiskTimes {
            syncs: 0,
            total: 0,
            greatest: 0,
            buckets: [0; 16],
            slow: 0,
            last_slow: 0,
            writes: 0,
            written: 0,
            reads: 0,
            fetched: 0,
            length: 0,
        }
    }

    /// The counts after a sync that took this many milliseconds.
    pub fn after_sync(self, time: u64) -> DiskTimes
        ensures { result ≡ after_sync time self }
    {
        let is_slow = time >= SLOW;
        DiskTimes {
            syncs: self.syncs.saturating_add(1),
            total: self.total.saturating_add(time),
            greatest: self.greatest.max(time),
            buckets: counted_in(bucket_of(time), self.buckets),
            slow: if is_slow {
                self.slow.saturating_add(1)
            } else {
                self.slow
            },
            last_slow: if is_slow { time } else { self.last_slow },
            ..self
        }
    }

    /// The counts after a write of this many bytes at a place. One that failed doesn't raise the length.
    pub fn after_write(self, at: u64, bytes: u64, succeeded: bool) -> DiskTimes
        ensures { result ≡ after_write at bytes succeeded self }
    {
        let end = at.saturating_add(bytes);
        DiskTimes {
            writes: self.writes.saturating_add(1),
            written: self.written.saturating_add(bytes),
            length: if succeeded {
                self.length.max(end)
            } else {
                self.length
            },
            ..self
        }
    }

    /// The counts after a read of this many bytes.
    pub fn after_read(self, bytes: u64) -> DiskTimes
        ensures { result ≡ after_read bytes self }
    {
        DiskTimes {
            reads: self.reads.saturating_add(1),
            fetched: self.fetched.saturating_add(bytes),
            ..self
        }
    }

    /// The counts after a call that returned the disk's length.
    pub fn after_length(self, length: u64) -> DiskTimes
        ensures { result ≡ after_length length self }
    {
        DiskTimes { length, ..self }
    }
}
