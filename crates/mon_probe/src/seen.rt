//! What a prober asks of what it sees and remembers.

ghost use Rattle.std.specs.Prelude.{◌≡◌, ◌+◌, ◌≤◌, ◌^◌, ◌↔◌, ◌&&◌, not, nat_lt, nat_le, IsSome, IfSome};
ghost use Rattle.election_rules.specs.Ranking.{allows};
ghost use Rattle.mon_msg.specs.Protocol.Entering.{next_even};
ghost use Rattle.mon_msg.specs.Protocol.Phases.{same_phase};
ghost use Rattle.mon_msg.specs.Protocol.Readings.{readings_of};
ghost use Rattle.mon_types.specs.Ranks.{count_of};
ghost use Rattle.mon_wire.specs.declared.phase.Phase.TheVariants as phase_is;

use mon_kv::Kv;
use mon_msg::{Me, Phase};
use mon_stored::Stored;
use mon_types::{Epoch, RankSet, Version};
use std::alloc::Global;

/// How many versions a monitor may lack and still join an election.
const LAG: u64 = 10;

/// Whether a monitor in this phase probes.
pub(crate) fn is_probing(phase: Phase) -> bool
    ensures { result ≡ same_phase phase phase_is.Probing }
{
    matches!(phase, Phase::Probing)
}

/// Whether the interrupted copy may end with a last version: it is at least 1, and not below the floor.
pub(crate) fn reaches_floor(stored: &Stored<'_>, last: Version) -> bool
    ensures { result ≡ (nat_le 1 last && nat_le (readings_of stored.now).floor last) }
{
    1 <= last.get() && stored.floor().get() <= last.get()
}

/// Whether another monitor's first version is after this one's last one, and isn't the first of all. The other monitor
/// may then not keep all that this one lacks.
pub(crate) fn is_cut_off(stored: &Stored<'_>, first: Version) -> bool
    ensures { result ≡ (nat_lt (readings_of stored.now).last first && nat_lt 1 first) }
{
    stored.last().get() < first.get() && 1 < first.get()
}

/// Whether the monitor lacks more than `LAG` of the versions up to `last`.
pub(crate) fn lags(stored: &Stored<'_>, last: Version) -> bool
    ensures { result ≡ nat_lt ((readings_of stored.now).last + 10) last }
{
    stored.last().get() + LAG < last.get()
}

/// Whether there is a quorum.
pub(crate) fn is_quorum(ranks: RankSet) -> bool
    ensures { result ≡ nat_lt 0 (count_of ranks) }
{
    0 < ranks.count()
}

/// Whether the monitor has others in its map.
pub(crate) fn has_others(me: &Me) -> bool
    ensures { result ≡ nat_lt 1 me.now.member.monitors }
{
    1 < me.member.monitors
}

/// Whether a full synchronization is under way.
fn is_marked(alloc: Global, kv: &Kv) -> bool
    ensures { result ≡ (readings_of kv.now).marked }
{
    Stored::of(alloc, kv).is_marked()
}

/// Whether a monitor that is alone in its map may lead: the rule allows it, and no full synchronization is under way.
pub(crate) fn may_lead(alloc: Global, kv: &Kv, me: &Me) -> bool
    ensures { result ≡ (allows me.now.rule me.now.member.rank && not (readings_of kv.now).marked) }
{
    me.rule.allows(me.member.rank) && !is_marked(alloc, kv)
}

/// The next greater even epoch, unless it would pass 2^62.
pub(crate) fn next_even(epoch: Epoch) -> Option<Epoch>
    ensures valid { IsSome result ↔ (next_even epoch ≤ 2 ^ 62) }
    ensures value { IfSome result (λ e. e ≡ next_even epoch) }
{
    Epoch::new((epoch.get() / 2 + 1) * 2)
}
