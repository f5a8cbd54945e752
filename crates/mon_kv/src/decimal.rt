//! Keys that are decimal numbers without padding.

ghost use Rattle.std.specs.Prelude.{◌≡◌, ℕ, ◌^◌, ◌≤◌, ◌≢◌, length, IsTrue, IfSome, IfNone};
ghost use Rattle.std.specs.List.{list_all};
ghost use Rattle.std.specs.Str.Parse.{digits_value};
ghost use Rattle.mon_tx.specs.Map.{is_digit, is_decimal, is_within};

fn all_digits(key: &[u8]) -> bool
    ensures { result ≡ list_all is_digit key.now }
{
    key.iter().all(|b| *b >= 48 && *b <= 57)
}

fn is_decimal(key: &[u8]) -> bool
    ensures { result ≡ is_decimal key.now }
{
    if !all_digits(key) {
        return false;
    }
    match key {
        [] => false,
        [first, ..] => *first > 48 || key.len() == 1,
    }
}

/// The number that the digits represent, if it fits.
fn value_of(digits: &str) -> Option<u64>
    requires { IsTrue (list_all is_digit digits.now) }
    ensures some { IfSome result (λ n. n ≡ digits_value 10 digits.now) }
    ensures none { IfNone result (length digits.now ≢ 0 → 2 ^ 64 ≤ digits_value 10 digits.now) }
{
    match digits.parse::<u64>() {
        Ok(n) => Some(n),
        Err(_) => None,
    }
}

/// Whether the key is the decimal number, without padding, of a version from `from` up to but not including `to`.
#[tactic(auto, unfolding(mon_tx::specs::Map::is_within))]
pub(crate) fn is_within(key: &str, from: u64, to: u64) -> bool
    ensures { result ≡ is_within from to key.now }
{
    if !is_decimal(key.as_bytes()) {
        return false;
    }
    match value_of(key) {
        Some(n) => from <= n && n < to,
        None => false,
    }
}
