ghost use Rattle.std.specs.Prelude.{◌≡◌, ℕ, ◌<◌, ◌≤◌, ◌^◌, length};
ghost use Rattle.mon_types.specs.Ranks.{no_ranks, has, with_rank, count_of, is_majority, is_empty, is_within, ranks_in, to_bits, from_bits};

use crate::rank::Rank;
use std::marker::Model;

/// A set of ranks.
#[derive(Clone, Copy, Debug, PartialEq, Eq)]
pub struct RankSet {
    flags: [bool; 15],
}

impl Model for RankSet {
    ghost use Rattle.std.specs.Prelude.{Bool, List};

    ghost Value = { List Bool };

    ghost view = { λ s. s.flags };

    ghost inverse = { λ flags. record { flags = flags } };
}

impl RankSet {
    /// The set without a rank.
    pub fn empty() -> RankSet
        ensures { result ≡ no_ranks }
    {
        RankSet { flags: [false; 15] }
    }

    /// The set with `r` in it.
    pub fn with(self, r: Rank) -> RankSet
        ensures { result ≡ with_rank self r }
    {
        let mut flags = self.flags;
        flags[usize::from(r.get())] = true;
        RankSet { flags }
    }

    /// Whether `r` is in the set.
    pub fn has(self, r: Rank) -> bool
        ensures { result ≡ has self r }
    {
        self.flags[usize::from(r.get())]
    }

    /// How many ranks are in the set.
    pub fn count(self) -> u8
        ensures value { result ≡ count_of self }
        ensures most { result ≤ 15 }
    {
        let mut count = 0;
        for flag in self.flags {
            if flag {
                count += 1;
            }
        }
        count
    }

    /// Whether the set is a majority of `n` monitors: twice its count is above `n`.
    pub fn is_majority(self, n: u8) -> bool
        ensures { result ≡ is_majority n self }
    {
        2 * u16::from(self.count()) > u16::from(n)
    }

    /// Whether no rank is in the set.
    pub fn is_empty(self) -> bool
        ensures { result ≡ is_empty self }
    {
        self.flags.iter().all(|flag| !*flag)
    }

    /// Whether no rank from `n` on is in the set.
    pub fn is_within(self, n: u8) -> bool
        ensures { result ≡ is_within n self }
    {
        self.flags.iter().skip(usize::from(n)).all(|flag| !*flag)
    }

    /// The ranks in the set, in ascending order.
    pub fn iter(self) -> Ranks
        ensures { result ≡ ranks_in self }
    {
        Ranks { set: self, next: 0 }
    }

    /// The number whose bit r is 1 if and only if rank r is in the set.
    pub fn to_bits(self) -> u16
        ensures value { result ≡ to_bits self }
        ensures most { result < 2 ^ 15 }
        ensures ranks { length self ≡ 15 }
    {
        let mut bits = 0;
        for i in 0..15 {
            bits = 2 * bits + u16::from(self.flags[14 - i]);
        }
        bits
    }

    /// The set with the ranks whose bits are 1. There is no rank for the highest bit.
    #[tactic(auto, unfolding(crate::specs::Ranks::from_bits))]
    pub fn from_bits(bits: u16) -> RankSet
        ensures { result ≡ from_bits bits }
    {
        let mut flags = [false; 15];
        let mut rest = bits;
        for r in 0..15 {
            flags[r] = rest % 2 == 1;
            rest /= 2;
        }
        RankSet { flags }
    }
}

/// An iterator over the ranks of a set, in ascending order.
#[derive(Drop)]
pub struct Ranks {
    set: RankSet,
    next: u8,
}

impl Model for Ranks {
    ghost use Rattle.std.specs.Prelude.{ℕ, List};
    ghost use Rattle.mon_types.specs.Ranks.{ranks_from};

    ghost Value = { List ℕ };

    ghost view = { λ r. ranks_from r.next r.set };
}

impl Iterator for Ranks {
    ghost use Rattle.std.specs.Iterator.{YieldsFirst, item_count};

    type Item = Rank;

    ghost next_gives = { YieldsFirst (λ r. r) };

    ghost remaining = { item_count (λ r. r) };

    #[tactic(auto, using(crate::proofs::Order::ranks_in, crate::proofs::Order::ranks_out, crate::proofs::Order::ranks_past))]
    fn next(&mut self) -> Option<Rank> {
        while self.next < 15 {
            let rank = Rank::known(self.next);
            self.next += 1;
            if self.set.has(rank) {
                return Some(rank);
            }
        }
        None
    }
}
