ghost use Rattle.std.specs.Prelude.{◌≡◌, ℕ, ◌≤◌, ◌<◌, ◌↔◌, IsSome, IfSome};

use std::marker::Model;

/// A monitor's place in the monitor map, from 0 to 14.
#[derive(Clone, Copy, Debug, PartialEq, Eq, PartialOrd, Ord)]
pub struct Rank {
    rank: u8,
}

impl Model for Rank {
    ghost Value = { ℕ };

    ghost view = { λ r. r.rank };

    ghost invariant = { λ r. r.rank ≤ 14 };

    ghost inverse = { λ n. record { rank = n } };
}

impl Rank {
    /// The rank `r`, or `None` if and only if it is above 14.
    pub fn new(r: u8) -> Option<Rank>
        ensures valid { IsSome result ↔ (r ≤ 14) }
        ensures value { IfSome result (λ rank. rank ≡ r) }
    {
        if r <= 14 {
            Some(Rank { rank: r })
        } else {
            None
        }
    }

    /// The rank `r`, which is known to be at most 14.
    pub fn known(r: u8) -> Rank
        requires { r ≤ 14 }
        ensures { result ≡ r }
    {
        Rank { rank: r }
    }

    /// The rank as a number.
    pub fn get(self) -> u8
        ensures value { result ≡ self }
        ensures most { result ≤ 14 }
    {
        self.rank
    }
}
