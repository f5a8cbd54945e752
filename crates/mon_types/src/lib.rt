//! The numbers and ranks that a quorum of monitors counts with.
#![tactic(auto)]

mod member;
mod names;
mod numbers;
mod proposal;
mod rank;
mod rank_set;

pub use member::Member;
pub use names::{Side, Stop, Which};
pub use numbers::{
    Epoch, GREATEST, Moment, Number, OfEpoch, OfMoment, OfPn, OfVersion, Pn, Version,
};
pub use proposal::next_pn;
pub use rank::Rank;
pub use rank_set::{RankSet, Ranks};
