ghost use Rattle.std.specs.Prelude.{◌≡◌, ℕ, ◌≤◌, ◌+◌, ◌<◌, ◌^◌, length, drop, IsTrue};
ghost use Rattle.std.specs.Str.{is_utf8};
ghost use Rattle.map_log.specs.Map.{trimmed};
ghost use Rattle.map_log.specs.Text.{inc_size, size_of};

use crate::inc::LogInc;

/// The most entries of the map.
pub const MOST_ENTRIES: usize = 500;

/// The most bytes of the encoded map.
pub const MOST_LOG_MAP: u64 = 12288;

/// How many bytes an entry takes in the map's text.
pub(crate) fn inc_size(inc: &LogInc) -> u64
    ensures size { result ≡ inc_size inc.now }
    ensures most { result < 2 ^ 63 + 2 ^ 10 }
    ensures rank { inc.now.rank ≤ 14 }
    ensures text { IsTrue (is_utf8 inc.now.text) }
{
    // For the prover: a rank is at most 14.
    let _rank = inc.rank.get();
    inc.text.as_slice().len() as u64 + 5
}

/// How many entries are dropped from the front if the map's text has `size` bytes, and the size of the text after that.
pub(crate) fn surplus(entries: &[LogInc], size: u64) -> (usize, u64)
    requires { size ≡ 4 + size_of entries.now }
    ensures most { result.0 ≤ length entries.now }
    ensures left { drop result.0 entries.now ≡ trimmed entries.now }
    ensures size { result.1 ≡ 4 + size_of (trimmed entries.now) }
{
    let mut size = size;
    for (i, inc) in entries.iter().enumerate() {
        if entries.len() - i <= MOST_ENTRIES && size <= MOST_LOG_MAP {
            return (i, size);
        }
        size -= inc_size(inc);
    }
    (entries.len(), size)
}
