ghost use Rattle.std.specs.Prelude.{◌≡◌, ◌≤◌, ◌<◌, ◌↔◌, IsSome, IfSome};

use crate::rank::Rank;

/// A monitor's rank, and the number of monitors in its map, 1 to 15.
#[derive(Clone, Copy, Debug, PartialEq, Eq)]
pub struct Member {
    pub rank: Rank,
    pub monitors: u8,
    pub ghost most: { monitors ≤ 15 },
    pub ghost in_map: { rank < monitors },
}

impl Member {
    /// `None` if and only if `monitors` isn't 1 to 15 or the rank isn't below it.
    pub fn new(rank: Rank, monitors: u8) -> Option<Member>
        ensures valid { IsSome result ↔ (rank < monitors) × (monitors ≤ 15) }
        ensures value { IfSome result (λ m. (m.rank ≡ rank) × (m.monitors ≡ monitors)) }
    {
        if rank.get() < monitors && monitors <= 15 {
            Some(Member { rank, monitors })
        } else {
            None
        }
    }
}
