//! A monitor asks for what follows the place that it has reached.

ghost use Rattle.std.specs.Prelude.{◌≡◌, ℕ, suc, ◌+◌, ◌||◌, not, nat_lt, ◌≤◌, nat_le, false, None, if◌then◌else◌, length, slice_index_or, sum_by, IfOk};
ghost use Rattle.mon_msg.specs.Protocol.Parts.{value_length};
ghost use Rattle.mon_msg.specs.Protocol.Places.{is_cookie};
ghost use Rattle.mon_msg.specs.Protocol.Providing.{chunk, given_values, reach, hear_get_chunk};
ghost use Rattle.mon_msg.specs.Protocol.Readings.{readings_of, shared_entries};
ghost use Rattle.mon_msg.specs.declared.plan.Next.TheVariants as next;
ghost use Rattle.mon_wire.specs.declared.parts.Cookie.{Cookie};
ghost use Rattle.mon_wire.specs.declared.write_lists.TheConstants.{MOST_ITEMS};
ghost use Rattle.sync_provider.specs.declared.entries.TheConstants.{BESIDES, BESIDES_LAST};
ghost use Rattle.sync_provider.specs.Rows.{ByRow, remaining_after};

use crate::cookies::{answer, lacks};
use crate::entries::{BESIDES, BESIDES_LAST, given_entries, is_end};
use crate::here::Here;
use mon_bytes::{Items, OutOfMemory};
use mon_kv::{KeyRun, Kv};
use mon_msg::{Body, Cookie, Place, Plan, Provider, RoleStop};
use mon_stored::{Run, Stored};
use mon_types::{Rank, Version};
use mon_wire::place_len;
use std::alloc::Global;

/// How many bytes a LAST_CHUNK, if `is_last`, or otherwise a CHUNK takes besides its place, its values and its entries.
fn besides(is_last: bool) -> usize
    ensures { result ≡ if is_last then BESIDES_LAST else BESIDES }
{
    if is_last { BESIDES_LAST } else { BESIDES }
}

/// The records after a place, as many as one chunk takes.
fn given_values(
    alloc: Global,
    kv: &Kv,
    stored: &Stored<'_>,
    place: &Place,
) -> Result<Run, OutOfMemory>
    requires { stored.now ≡ kv.now }
    ensures values { IfOk result (λ run. (n : ℕ) (c : Cookie) → let w = readings_of kv.now in
        run.values ≡ given_values w.last c place.now (remaining_after kv.now place.now.key) n w.record_of) }
    ensures bytes { IfOk result (λ run. run.bytes ≡ sum_by value_length run.values) }
    ensures few { IfOk result (λ run. length run.values ≤ MOST_ITEMS) }
{
    let len = place_len(place);
    let end = is_end(kv, place)?;
    let next = place.version.get() + 1;
    stored.run(alloc, next, BESIDES + len, besides(end) + len)
}

/// Whether the records after a place reach the last version.
fn reaches(last: Version, place: &Place, count: usize) -> bool
    requires { count ≤ MOST_ITEMS }
    ensures { result ≡ nat_le last (place.now.version + count) }
{
    last.get() <= place.version.get() + count as u64
}

/// The chunk that follows a place, under this cookie: a LAST_CHUNK if nothing follows it, and otherwise a CHUNK.
fn chunk(alloc: Global, kv: &Kv, cookie: Cookie, place: &Place) -> Result<Body, OutOfMemory>
    ensures { (n : ℕ) → let w = readings_of kv.now in
        IfOk result (λ body. body ≡ chunk w.last cookie place.now
        (remaining_after kv.now place.now.key) n w.record_of) }
{
    let stored = Stored::of(alloc, kv);
    let last = stored.last();
    let Run { values, bytes } = given_values(alloc, kv, &stored, place)?;
    let whole = reaches(last, place, values.len());
    let len = place_len(place).saturating_add(bytes);
    let KeyRun { entries, done } = given_entries(kv, place, len, whole)?;
    let place = place.copy(alloc)?;
    let entries = Items::from_vec(entries);
    let is_last = whole & done;
    if is_last {
        return Ok(Body::LastChunk {
            cookie,
            place,
            values,
            entries,
            last,
        });
    }
    Ok(Body::Chunk {
        cookie,
        place,
        values,
        entries,
        done,
    })
}

/// Whether a monitor's latest cookie is this one.
fn is_known(state: &Provider, of: Rank, cookie: Cookie) -> bool
    ensures { result ≡ is_cookie cookie (slice_index_or state.now.cookies of None) }
{
    match state.cookies[usize::from(of.get())] {
        None => false,
        Some(known) => cookie.boot == known.boot && cookie.seq == known.seq,
    }
}

/// Whether a chunk is refused: the cookie isn't the monitor's, or some of the versions after the place aren't kept any
/// more.
fn is_refused(
    stored: &Stored<'_>,
    state: &Provider,
    to: Rank,
    cookie: Cookie,
    place: &Place,
) -> bool
    ensures { result ≡ (not (is_cookie cookie (slice_index_or state.now.cookies to None))
        || nat_lt (suc place.now.version) (readings_of stored.now).first) }
{
    !is_known(state, to, cookie) || lacks(stored, place.version)
}

/// A monitor asks for what follows a place, under its cookie. It gets a chunk, or NO_COOKIE.
pub(crate) fn give_chunk(
    here: &Here<'_>,
    to: Rank,
    cookie: Cookie,
    place: &Place,
) -> Result<Plan<Provider>, RoleStop>
    requires { (readings_of here.now.kv.now).marked ≡ false }
    ensures plans { (now : ℕ) → ByRow here.now now
        (hear_get_chunk here.now.me.now (shared_entries here.now.kv.now) to cookie place.now) result }
    ensures stays { IfOk result (λ plan. plan.next ≡ next.Stay) }
{
    let stored = Stored::of(here.alloc, here.kv);
    if is_refused(&stored, here.state, to, cookie, place) {
        return answer(here, to, Body::NoCookie { cookie });
    }
    let body = chunk(here.alloc, here.kv, cookie, place)?;
    answer(here, to, body)
}
