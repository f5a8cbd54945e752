//! What is sent to members that lack versions.

ghost use Rattle.std.specs.Prelude.{◌≡◌, ◌++◌, flat_map, IfOk, OnOk};
ghost use Rattle.mon_msg.specs.Protocol.Collecting.{commits_to};
ghost use Rattle.mon_msg.specs.Protocol.Readings.{readings_of};
ghost use Rattle.paxos_leader.specs.Drafts.{at_epoch};
ghost use Rattle.paxos_leader.specs.Parts.{commits};

use crate::seen::Act;
use mon_bytes::{Items, OutOfMemory};
use mon_msg::plan::Sent;
use mon_msg::{Body, Leader};
use mon_plan::{members, message};
use mon_stored::{Run, Stored};
use mon_types::{Rank, Version};

/// How many bytes a COMMIT takes besides its values.
const BESIDES: usize = 22;

/// Appends a COMMIT with the versions after the one that a member reported, as many as one message takes. Nothing is
/// appended if there are none.
fn commit_to(
    act: &Act<'_>,
    stored: &Stored<'_>,
    lasts: &[Version; 15],
    to: Rank,
    out: &mut Items<Sent>,
) -> Result<(), OutOfMemory>
    ensures { OnOk result (out.new ≡ out.old ++
        commits_to act.now.me.now (at_epoch act.now.epoch (readings_of stored.now)) lasts.now to) }
{
    let told = lasts[usize::from(to.get())];
    if told.get() >= stored.last().get() {
        return Ok(());
    }
    let next = Version::known(told.get() + 1);
    let Run { values, .. } = stored.run(act.alloc, next.get(), BESIDES, BESIDES)?;
    if values.is_empty() {
        return Ok(());
    }
    let commit = Body::Commit { from: next, values };
    out.push(message(act.me, act.epoch, commit, to))?;
    Ok(())
}

/// Appends the commits that each of some members lacks.
fn catch_up(
    act: &Act<'_>,
    stored: &Stored<'_>,
    lasts: &[Version; 15],
    members: &[Rank],
    out: &mut Items<Sent>,
) -> Result<(), OutOfMemory>
    ensures { OnOk result (out.new ≡ out.old ++
        flat_map (commits_to act.now.me.now (at_epoch act.now.epoch (readings_of stored.now)) lasts.now) members.now) }
{
    for member in members {
        commit_to(act, stored, lasts, *member, out)?;
    }
    Ok(())
}

/// Appends a COMMIT for each other member of the quorum that lacks versions, by the last version that it reported.
pub(crate) fn send_missed(
    act: &Act<'_>,
    stored: &Stored<'_>,
    state: &Leader,
    out: Items<Sent>,
) -> Result<Items<Sent>, OutOfMemory>
    ensures { IfOk result (λ sent.
        sent ≡ out ++ commits act.now.me.now act.now.epoch (readings_of stored.now) state.now) }
{
    let peons = members(act.alloc, act.me, state.quorum)?;
    let mut out = out;
    catch_up(act, stored, &state.lasts, peons.as_slice(), &mut out)?;
    Ok(out)
}
