//! The places of a map: pairs of a prefix and a key.

ghost use Rattle.std.specs.Prelude.{◌≡◌};
ghost use Rattle.std.specs.Ordering.{eq_by_cmp};
ghost use Rattle.mon_tx.specs.Map.{place_cmp};

/// Whether two places are the same.
pub fn is_at(prefix: &[u8], key: &[u8], other_prefix: &[u8], other_key: &[u8]) -> bool
    ensures { result ≡ eq_by_cmp place_cmp (prefix.now, key.now) (other_prefix.now, other_key.now) }
{
    let same_prefix = prefix == other_prefix;
    let same_key = key == other_key;
    same_prefix & same_key
}
