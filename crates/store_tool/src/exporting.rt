//! An export of a map.

ghost use Rattle.std.specs.Prelude.{◌≡◌, ◌≤◌, Ok, IfOk};
ghost use Rattle.mon_kv.specs.Readers.{size_of, most_size};
ghost use Rattle.mon_journal.specs.Written.{owner_of};
ghost use Rattle.store_tool.specs.Export.{export_text, export_of, HasExport};

use mon_bytes::{Out, OutOfMemory};
use mon_kv::Kv;
use mon_store::write_checkpoint;
use mon_types::Member;
use std::alloc::Global;

/// No export has more bytes: 15, and the greatest size of a map.
pub const MOST_EXPORT: u64 = 268435471;

/// The export of a member's map: `CEPHEXP1`, the rank, the number of monitors, and a checkpoint of the map. It takes
/// memory for the bytes alone.
pub fn export(alloc: Global, kv: &Kv, member: Member) -> Result<Vec<u8>, OutOfMemory>
    requires { size_of kv.now ≤ most_size }
    ensures text { IfOk result (λ bytes. bytes.items ≡ export_text (owner_of member) kv.now) }
    ensures form { IfOk result (λ _. HasExport (owner_of member) kv.now) }

    // Reading it gives this member and this map again.
    ensures again { IfOk result (λ bytes. export_of bytes.items ≡ Ok (owner_of member, kv.now)) }
{
    let mut out = Out::new(alloc);
    out.put_bytes(b"CEPHEXP1")?;
    out.put_u8(member.rank.get())?;
    out.put_u8(member.monitors)?;
    write_checkpoint(&mut out, kv)?;
    Ok(out.into_bytes())
}
