ghost use Rattle.std.specs.Prelude.{◌≡◌, ◌≤◌, ◌∷◌, [], length, OnOk, IfOk, IfSome};
ghost use Rattle.std.specs.Result.{result_err};
ghost use Rattle.mon_disk.specs.Images.{Only, images};
ghost use Rattle.mon_disk.specs.Calls.{Called};
ghost use Rattle.mon_disk.specs.declared.disk.DiskCall.TheVariants.{Sync};
ghost use Rattle.mon_journal.specs.Steps.{Opens, OpensBy, on_disk, stop_in};

use crate::journal::Journal;
use crate::pieces::Piece;
use crate::records::held_on;
use crate::step::write_synced;
use crate::stop::JournalStop;
use mon_disk::Disk;
use mon_types::Stop;
use std::alloc::Global;

/// What a disk was found to hold.
#[derive(Drop)]
pub enum Opened {
    /// At most one byte, or a file whose header gate isn't open.
    Closed { len: u64 },
    /// A store's file. The payloads of its records stay on the disk, from which a `Reader` reads them.
    Live { journal: Journal },
}

fn synced_len<D: Disk>(disk: &mut D) -> Result<u64, Stop>
    ensures call { Called (Sync ∷ []) (images (D.state disk.old).content) (result_err result) (D.state disk.old)
        (D.state disk.new) }
    ensures length { IfOk result (λ n. IfSome (D.state disk.old).content.seen (λ file. n ≡ length file)) }
    ensures known { IfOk result (λ n. (D.state disk.new).known ≡ n) }
    ensures seen { OnOk result ((D.state disk.new).content.seen ≡ (D.state disk.old).content.seen) }
    ensures durable { OnOk result (Only (D.state disk.new).content) }
{
    disk.sync()?;
    let len = disk.len()?;
    Ok(len)
}

/// Opens what a crash may have left on a disk. It begins with a sync, and on an open disk it ends with zero at the
/// first closed gate. A file that is no store is refused by the first field at fault, and nothing after that
/// field is read. Its time is linear in the file's length. It needs memory for at most 65,536 bytes and a header.
pub fn open<D: Disk>(alloc: Global, disk: &mut D) -> Result<Opened, JournalStop>
    ensures found { let seen = (D.state disk.old).content.seen in
        Opens seen (D.state disk.new).known (D.state disk.new).content (on_disk seen result) }

    // Which writes and syncs were made. A crash at any point of the call leaves a file with the same content as one
    // that it might have left before.
    ensures call { OpensBy (stop_in result) (D.state disk.old) (D.state disk.new) }
{
    let len = synced_len(disk)?;
    let mut piece = Piece::new(alloc, len);
    let found = held_on(&mut piece, disk)?;
    match found {
        None => Ok(Opened::Closed { len }),
        Some(journal) => {
            write_synced(disk, journal.next_gate, &[0])?;
            Ok(Opened::Live { journal })
        }
    }
}
