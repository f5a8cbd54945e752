ghost use Rattle.std.specs.Prelude.{◌≡◌, ◌≤◌, ◌^◌, ◌↔◌, IsSome, IfSome};
ghost use Rattle.mon_types.specs.Proposal.{next_number};

use crate::numbers::Pn;
use crate::rank::Rank;

/// The next proposal number of `rank`, which is above `last`, the last one that it made, and above `gt`: the next
/// multiple of a hundred, plus the rank. So no two ranks make the same one. `None` if and only if that is above 2^62.
pub fn next_pn(last: Pn, gt: Pn, rank: Rank) -> Option<Pn>
    ensures fits { IsSome result ↔ (next_number last gt rank ≤ 2 ^ 62) }
    ensures value { IfSome result (λ pn. pn ≡ next_number last gt rank) }
{
    let above = last.get().max(gt.get());
    Pn::new((above / 100 + 1) * 100 + u64::from(rank.get()))
}
