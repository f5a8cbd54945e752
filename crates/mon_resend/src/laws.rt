//! Laws about what is kept.

ghost use Rattle.mon_resend.specs.Bounds.{StaysWithin};
ghost use Rattle.mon_resend.specs.Keeping.{EachIsKept};

/// For each monitor at most 160 datagrams are kept, of 6 MiB in all, whatever is sent, whatever arrives, and whenever.
#[tactic(auto, using(crate::proofs::Within::stays_within))]
pub fn law_within()
    ensures { StaysWithin }
{}

/// Each datagram of a message that is sent again is kept if there is room, or it is counted that memory was refused for it.
/// Nothing else is counted of what is sent.
#[tactic(auto, using(crate::proofs::Keeping::each_is_kept))]
pub fn law_copies_kept()
    ensures { EachIsKept }
{}
