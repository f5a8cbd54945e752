//! Sets of ranks.

ghost use Rattle.std.specs.Prelude.{◌≡◌, not, ◌||◌};
ghost use Rattle.mon_msg.specs.Protocol.Leading.{is_alone as alone_in};
ghost use Rattle.mon_msg.specs.Protocol.Sets.{are_within as within, only as only_one};
ghost use Rattle.mon_types.specs.Ranks.{has};

use mon_msg::{Leader, Me};
use mon_types::{Rank, RankSet};

/// The monitor alone.
pub(crate) fn only(me: &Me) -> RankSet
    ensures { result ≡ only_one me.now.member.rank }
{
    RankSet::empty().with(me.member.rank)
}

/// Whether a rank is in the second set if it is in the first.
fn is_kept(these: RankSet, those: RankSet, rank: Rank) -> bool
    ensures { result ≡ (not (has these rank) || has those rank) }
{
    !these.has(rank) || those.has(rank)
}

/// Whether each monitor of the first set is in the second.
pub(crate) fn are_within(me: &Me, these: RankSet, those: RankSet) -> bool
    ensures { result ≡ within me.now.member.monitors these those }
{
    for r in 0..me.member.monitors {
        if !is_kept(these, those, Rank::known(r)) {
            return false;
        }
    }
    true
}

/// Whether there is no other monitor in a set.
pub(crate) fn is_alone(me: &Me, quorum: RankSet) -> bool
    ensures { result ≡ alone_in me.now quorum }
{
    are_within(me, quorum, only(me))
}

/// Whether a leader is alone in its quorum.
pub(crate) fn leads_alone(me: &Me, state: &Leader) -> bool
    ensures { result ≡ alone_in me.now state.now.quorum }
{
    is_alone(me, state.quorum)
}
