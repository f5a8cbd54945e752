ghost use Rattle.std.specs.Prelude.{IfOk};
ghost use Rattle.mon_bytes.specs.Makes.{Makes};
ghost use Rattle.map_log.specs.Made.{made};
ghost use Rattle.map_log.specs.Text.{IncFits};

use crate::inc::LogInc;
use mon_bytes::{CommandRefused, Text};
use mon_types::Rank;
use std::alloc::Global;

/// The most bytes of a logged text.
pub const MOST_TEXT: u64 = 1024;

/// The entry of a text that the monitor `rank` is asked to log. Returns `TooLong` if and only if the text is longer
/// than 1,024 bytes.
pub fn make(alloc: Global, rank: Rank, text: &Text) -> Result<LogInc, CommandRefused>
    ensures made { Makes result (made rank text.now) }
    ensures form { IfOk result IncFits }
{
    let len = text.as_slice().len() as u64;
    if len > MOST_TEXT {
        return Err(CommandRefused::TooLong {
            len,
            most: MOST_TEXT,
        });
    }
    // For the prover: a rank is at most 14.
    let _rank = rank.get();
    Ok(LogInc {
        rank,
        text: text.copy(alloc)?,
    })
}
