ghost use Rattle.std.specs.Prelude.{◌≡◌, ◌≤◌, ◌<◌, ◌+◌, ◌^◌, List, [], ◌∷◌, Err, max, length, IfOk, IfSome, OnOk, OnErr};
ghost use Rattle.std.specs.Result.{result_err};
ghost use Rattle.mon_types.specs.declared.names.Stop.TheVariants.{OutOfMemory};
ghost use Rattle.mon_disk.specs.Images.{images, written, Reads, TornFrom, Only};
ghost use Rattle.mon_disk.specs.Calls.{DiskState, Called, Unmade};

use mon_bytes::Bytes;
use mon_types::Stop;

/// A call that changes what a crash may leave.
#[derive(Drop)]
pub enum DiskCall {
    /// These bytes were written from that place on.
    Write { at: u64, bytes: Bytes },
    /// The disk was asked to keep what was written.
    Sync,
}

/// A file of bytes that survives a crash, except what was written since the last sync that returned `Ok`.
///
/// For each method, `call` is the part that composed operations reuse: whether the disk's contents can be seen stays
/// the same; what a crash leaves at each point of the call; which writes and syncs were made; and what the disk
/// counted: a fault if it returned `Failed`, a failed allocation if it returned `OutOfMemory`, and nothing if it
/// returned `Ok`. After `OutOfMemory` the call wasn't made.
pub trait Disk {
    /// What a read returns and what a crash may leave, now and at each earlier point, if the disk's contents can be
    /// seen; those of a real file can't. The known length: the greatest of what `len` last returned, 0 before the
    /// first call, and the ends of the writes that returned `Ok` since. The writes and syncs that were made, if they
    /// can be seen. The faults so far, and the disk's own failed allocations.
    ghost state: { Self → DiskState };

    /// The length in bytes, which becomes the known length.
    fn len(&mut self) -> Result<u64, Stop>
        ensures call { Called [] (images (state self.old).content) (result_err result) (state self.old)
            (state self.new) }
        ensures length { IfOk result (λ n. IfSome (state self.old).content.seen (λ file. n ≡ length file)) }
        ensures known { IfOk result (λ n. (state self.new).known ≡ n) }
        ensures known_err { OnErr result ((state self.new).known ≡ (state self.old).known) }
        ensures seen { (state self.new).content.seen ≡ (state self.old).content.seen }
        ensures no_memory { result ≡ Err OutOfMemory → Unmade (state self.old) (state self.new) };

    /// Reads the bytes from an offset on, as many as `into` has room for. After an `Err`, `into` may hold any bytes.
    fn read(&mut self, at: u64, into: &mut [u8]) -> Result<(), Stop>
        requires { at + length into.old ≤ (state self.old).known }
        ensures call { Called [] (images (state self.old).content) (result_err result) (state self.old)
            (state self.new) }
        ensures room { length into.new ≡ length into.old }
        ensures bytes { OnOk result (Reads (state self.old).content.seen at into.new) }
        ensures known { (state self.new).known ≡ (state self.old).known }
        ensures seen { (state self.new).content.seen ≡ (state self.old).content.seen }
        ensures no_memory { result ≡ Err OutOfMemory → Unmade (state self.old) (state self.new) };

    /// Writes over what is there, and past the end. Until a sync, a crash may leave a part of it, whatever the call
    /// returned. After `Failed` a read, too, may return a part of it. A write that returns `Ok` ends below 2^64.
    fn write_at(&mut self, at: u64, bytes: &[u8]) -> Result<(), Stop>
        requires { at ≤ (state self.old).known }
        ensures call { Called (DiskCall.Write at bytes.now ∷ []) (TornFrom (state self.old).content at bytes.now)
            (result_err result) (state self.old) (state self.new) }
        ensures written { OnOk result ((state self.new).content.seen
            ≡ written at bytes.now (state self.old).content.seen) }
        ensures end { OnOk result (at + length bytes.now < 2 ^ 64) }
        ensures known { OnOk result ((state self.new).known ≡ max (state self.old).known (at + length bytes.now)) }
        ensures known_err { OnErr result ((state self.new).known ≡ (state self.old).known) }
        ensures no_memory { result ≡ Err OutOfMemory → Unmade (state self.old) (state self.new) };

    /// Makes durable what was written. After `Ok` a crash leaves what a read returns.
    fn sync(&mut self) -> Result<(), Stop>
        ensures call { Called (DiskCall.Sync ∷ []) (images (state self.old).content) (result_err result)
            (state self.old) (state self.new) }
        ensures durable { OnOk result (Only (state self.new).content) }
        ensures seen { OnOk result ((state self.new).content.seen ≡ (state self.old).content.seen) }
        ensures known { (state self.new).known ≡ (state self.old).known }
        ensures no_memory { result ≡ Err OutOfMemory → Unmade (state self.old) (state self.new) };

    /// What a read returns is one of the disk's images.
    ghost as_read: { (d : Self) → IfSome (state d).content.seen (images (state d).content) };

    /// What a disk settles to is one of its images.
    ghost settled: { (d : Self) → IfSome (state d).observed (λ t. images (state d).content (t.settles t.made)) };
}
