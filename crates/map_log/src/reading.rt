ghost use Rattle.mon_bytes.specs.Forms.{Reads};
ghost use Rattle.map_log.specs.Decode.{rank_at, entries_at};

use crate::inc::LogInc;
use crate::map::LogMap;
use mon_bytes::{Cursor, Decode, MapRefused, read_text};
use mon_types::Rank;
use std::alloc::Global;

#[tactic(auto, unfolding(crate::specs::Decode::rank_at))]
fn rank_at(cursor: &mut Cursor<'_>) -> Result<Rank, MapRefused>
    ensures { Reads (λ x. x) result cursor.new (rank_at cursor.old) }
{
    let at = cursor.at();
    let number = cursor.take_u8()?;
    match Rank::new(number) {
        Some(rank) => Ok(rank),
        None => Err(MapRefused::Form { at }),
    }
}

impl Decode for LogInc {
    ghost use Rattle.map_log.specs.Decode.{inc_format, inc_of};

    ghost format = { inc_format };

    ghost decoded = { inc_of };

    #[tactic(auto, using(crate::proofs::Laws::inc_is_lawful, crate::proofs::Laws::inc_is_whole), unfolding(crate::specs::Decode::inc_at))]
    fn read(alloc: Global, cursor: &mut Cursor<'_>) -> Result<LogInc, MapRefused> {
        let rank = rank_at(cursor)?;
        let text = read_text(alloc, cursor)?;
        Ok(LogInc { rank, text })
    }
}

fn entries_at(alloc: Global, count: u32, cursor: &mut Cursor<'_>) -> Result<LogMap, MapRefused>
    ensures { Reads (λ x. x) result cursor.new (entries_at count cursor.old) }
{
    let mut map = LogMap::new(alloc);
    for _ in 0..count {
        let inc = LogInc::read(alloc, cursor)?;
        map.push(inc)?;
    }
    Ok(map)
}

/// A map above the limits of `apply` is read in full: decoding drops no entries.
impl Decode for LogMap {
    ghost use Rattle.map_log.specs.Decode.{map_format, map_of};

    ghost format = { map_format };

    ghost decoded = { map_of };

    #[tactic(auto, using(crate::proofs::Laws::map_is_lawful, crate::proofs::Laws::map_is_whole))]
    fn read(alloc: Global, cursor: &mut Cursor<'_>) -> Result<LogMap, MapRefused> {
        let count = cursor.take_u32()?;
        entries_at(alloc, count, cursor)
    }
}
