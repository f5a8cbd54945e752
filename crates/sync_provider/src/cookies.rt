//! A monitor asks for a synchronization.

ghost use Rattle.std.specs.Prelude.{◌≡◌, ℕ, suc, ◌≤◌, ◌^◌, nat_lt, false, Some, Ok, IfOk, slice_set};
ghost use Rattle.mon_msg.specs.Protocol.Providing.{grant, hear_get_cookie_recent};
ghost use Rattle.mon_msg.specs.Protocol.Readings.{readings_of};
ghost use Rattle.mon_msg.specs.Protocol.Sending.{send};
ghost use Rattle.mon_msg.specs.declared.plan.Next.TheVariants as next;
ghost use Rattle.mon_wire.specs.declared.body.Body.TheVariants as body;
ghost use Rattle.sync_provider.specs.Rows.{ByRow};

use crate::here::Here;
use mon_msg::{Body, Cookie, Plan, Provider, RoleStop};
use mon_plan::{message, one, sending};
use mon_stored::Stored;
use mon_types::{GREATEST, Rank, Version, Which};

/// One message is sent, and nothing else is done.
pub(crate) fn answer(here: &Here<'_>, to: Rank, body: Body) -> Result<Plan<Provider>, RoleStop>
    ensures plans { (now : ℕ) → ByRow here.now now (λ x. Ok (send here.now.me.now to body x)) result }
    ensures stays { IfOk result (λ plan. plan.next ≡ next.Stay) }
{
    let stored = Stored::of(here.alloc, here.kv);
    let out = one(here.alloc, message(here.me, stored.epoch(), body, to))?;
    Ok(sending(here.alloc, out, *here.state))
}

/// The provider's state once it granted a monitor this cookie, in place of an earlier one.
fn with_cookie(state: &Provider, of: Rank, cookie: Cookie) -> Provider
    requires { state.now.next_cookie ≤ 2 ^ 62 }
    ensures { result
        ≡ record { cookies = slice_set state.now.cookies of (Some cookie); next_cookie = suc state.now.next_cookie } }
{
    let mut cookies = state.cookies;
    cookies[usize::from(of.get())] = Some(cookie);
    Provider {
        cookies,
        next_cookie: state.next_cookie + 1,
    }
}

/// Grants a monitor a new cookie for a whole copy, if `full`, or for the versions that it lacks. `Spent` names the
/// cookie's number if it would pass 2^62.
pub(crate) fn grant(here: &Here<'_>, to: Rank, full: bool) -> Result<Plan<Provider>, RoleStop>
    ensures plans { (now : ℕ) → ByRow here.now now (grant here.now.me.now full to) result }
    ensures stays { IfOk result (λ plan. plan.next ≡ next.Stay) }
{
    if here.state.next_cookie > GREATEST {
        return Err(RoleStop::Spent {
            which: Which::Cookie,
        });
    }
    let stored = Stored::of(here.alloc, here.kv);
    let cookie = Cookie {
        boot: stored.boot(),
        seq: here.state.next_cookie,
    };
    let granted = Body::Cookie {
        full,
        cookie,
        last: stored.last(),
    };
    let out = one(here.alloc, message(here.me, stored.epoch(), granted, to))?;
    Ok(sending(here.alloc, out, with_cookie(here.state, to, cookie)))
}

/// Whether some of the versions after `last` aren't kept any more.
pub(crate) fn lacks(stored: &Stored<'_>, last: Version) -> bool
    ensures { result ≡ nat_lt (suc last) (readings_of stored.now).first }
{
    stored.first().get() > last.get() + 1
}

/// A monitor asks for the versions above its last one. It gets no cookie if some of them aren't kept any more.
pub(crate) fn grant_recent(
    here: &Here<'_>,
    to: Rank,
    last: Version,
) -> Result<Plan<Provider>, RoleStop>
    requires { (readings_of here.now.kv.now).marked ≡ false }
    ensures plans { (now : ℕ) → ByRow here.now now (hear_get_cookie_recent here.now.me.now to last) result }
    ensures stays { IfOk result (λ plan. plan.next ≡ next.Stay) }
{
    let stored = Stored::of(here.alloc, here.kv);
    if lacks(&stored, last) {
        let cookie = Cookie { boot: 0, seq: 0 };
        return answer(here, to, Body::NoCookie { cookie });
    }
    grant(here, to, false)
}
