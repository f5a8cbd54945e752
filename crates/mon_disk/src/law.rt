//! Laws of what a crash may leave of a disk in memory.

ghost use Rattle.std.specs.Prelude.{◌≡◌, ℕ, ◌≤◌, true, false, List, [], Some, None};
ghost use Rattle.mon_types.specs.declared.names.Stop.TheVariants.{Failed};
ghost use Rattle.mon_disk.specs.declared.disk.DiskCall.TheVariants.{Write, Sync};
ghost use Rattle.mon_disk.specs.Images.{images, Torn};
ghost use Rattle.mon_disk.specs.Memory.{from_of, lost_of, seen_of, settled};
ghost use Rattle.mon_disk.specs.MemoryDisk.{MemoryState, state_of, fails, after_call, injected_by, settle_of};

/// After a write, even the first that fails, a crash may leave each torn form of what it might have left before. After
/// a sync it may leave what a read returns. When a fault is injected, all that it might have left before stays
/// possible. After the disk has settled it may leave what the disk settled to.
pub fn law_images()
    ensures written { (d : MemoryState) (at : ℕ) (bytes c e : List ℕ) → fails d.life ≡ false
        → images (state_of d).content c
        → Torn at bytes c e → images (state_of (after_call (Write at bytes) None d)).content e }
    ensures failed { (d : MemoryState) (at : ℕ) (bytes c e : List ℕ) → fails d.life ≡ true
        → lost_of (from_of d.life.upset) d.life.calls ≡ [] → images (state_of d).content c
        → Torn at bytes c e → images (state_of (after_call (Write at bytes) (Some Failed) d)).content e }
    ensures synced { (d : MemoryState) → fails d.life ≡ false
        → images (state_of (after_call Sync None d)).content (seen_of d.life) }
    ensures upset { (d : MemoryState) (call image : ℕ) (c : List ℕ) → d.life.upset ≡ None → 1 ≤ call
        → images (state_of d).content c → images (state_of (injected_by call image d)).content c }
    ensures settled { (d : MemoryState) → images (state_of (settle_of d)).content (settled d.life) }
{}
