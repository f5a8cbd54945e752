ghost use Rattle.std.specs.Prelude.{◌≡◌, ℕ, ◌+◌, ◌≤◌, ◌<◌, ◌^◌, ◌↔◌, IsSome, IfSome};
ghost use Rattle.mon_types.specs.Numbers.{plus_one_saturating};

use std::marker::{Model, PhantomData};

/// The greatest number of each kind, 2^62.
pub const GREATEST: u64 = 1 << 62;

/// A number from 0 to 2^62, of the kind that the marker `K` names.
#[derive(Clone, Copy, PartialEq, Eq, PartialOrd, Ord)]
pub struct Number<K: Copy> {
    number: u64,
    kind: PhantomData<K>,
}

impl<K: Copy> Model for Number<K> {
    ghost Value = { ℕ };

    ghost view = { λ x. x.number };

    ghost invariant = { λ x. x.number ≤ 2 ^ 62 };

    ghost inverse = { λ n. record { number = n; kind = record {} } };
}

impl<K: Copy> Number<K> {
    /// The number `n`, or `None` if and only if it is above 2^62.
    pub fn new(n: u64) -> Option<Number<K>>
        ensures valid { IsSome result ↔ (n ≤ 2 ^ 62) }
        ensures value { IfSome result (λ x. x ≡ n) }
    {
        if n <= GREATEST {
            Some(Number {
                number: n,
                kind: PhantomData,
            })
        } else {
            None
        }
    }

    /// The number `n`, which is known to be at most 2^62.
    pub fn known(n: u64) -> Number<K>
        requires { n ≤ 2 ^ 62 }
        ensures { result ≡ n }
    {
        Number {
            number: n,
            kind: PhantomData,
        }
    }

    /// The next number, or `None` if and only if this one is 2^62.
    pub fn plus_one(self) -> Option<Number<K>>
        ensures valid { IsSome result ↔ (self < 2 ^ 62) }
        ensures value { IfSome result (λ x. x ≡ self + 1) }
    {
        Number::new(self.number + 1)
    }

    /// The next number, or 2^62 if this one is 2^62.
    pub fn plus_one_saturating(self) -> Number<K>
        ensures { result ≡ plus_one_saturating self }
    {
        Number::known((self.number + 1).min(GREATEST))
    }

    /// The number itself.
    pub fn get(self) -> u64
        ensures value { result ≡ self }
        ensures most { result ≤ 2 ^ 62 }
    {
        self.number
    }
}

/// Marks a version.
#[derive(Clone, Copy, PartialEq, Eq, PartialOrd, Ord)]
pub struct OfVersion;

/// Marks a proposal number.
#[derive(Clone, Copy, PartialEq, Eq, PartialOrd, Ord)]
pub struct OfPn;

/// Marks an epoch.
#[derive(Clone, Copy, PartialEq, Eq, PartialOrd, Ord)]
pub struct OfEpoch;

/// Marks a point in time.
#[derive(Clone, Copy, PartialEq, Eq, PartialOrd, Ord)]
pub struct OfMoment;

/// A version of the log or of a service.
pub type Version = Number<OfVersion>;

/// A proposal number of Paxos.
pub type Pn = Number<OfPn>;

/// An election epoch: odd while an election runs, even in a quorum.
pub type Epoch = Number<OfEpoch>;

/// A point in time, in milliseconds.
pub type Moment = Number<OfMoment>;
