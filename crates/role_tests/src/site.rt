//! A monitor in one of its roles, and what it does at one input after the other.
//!
//! A large value is moved, or dropped by a call: a check is far longer if it is dropped in place.

use crate::comes::{Comes, input};
use crate::shown::shown;
use mon_kv::Kv;
use mon_msg::input::Input;
use mon_msg::{Me, Plan, RoleStop, View};
use mon_types::{Epoch, Rank};
use std::alloc::Global;
use std::process::Abort;
use std::test::Fail;

/// A role, as its tests drive it.
pub(crate) trait Role: Sized + Drop {
    /// The role's plan for an input, at the time 7, or `None` if the input isn't one of the role's.
    fn plan(
        alloc: Global,
        site: &Site<Self>,
        input: &Input,
    ) -> Option<Result<Plan<Self>, RoleStop>>;

    /// The part of the role's state that a test checks, as text.
    fn remembers(&self) -> &'static str;
}

/// A monitor with its store, in one of its roles.
#[derive(Drop)]
pub(crate) struct Site<R: Drop> {
    pub(crate) me: Me,
    pub(crate) view: View,
    /// The epoch of what it hears.
    pub(crate) epoch: Epoch,
    pub(crate) kv: Kv,
    pub(crate) role: R,
}

/// What a role plans, or why it has no plan. `None` if the input isn't one of the role's.
type Planned<R> = Option<Result<Plan<R>, RoleStop>>;

fn planned<R: Role>(
    alloc: Global,
    site: &Site<R>,
    from: u8,
    comes: Comes,
) -> Result<Planned<R>, Fail> {
    let input = input(alloc, &site.me, from, site.epoch, comes)?;
    let planned = R::plan(alloc, site, &input);
    drop(input);
    Ok(planned)
}

/// Carries out a plan of the monitor of this rank over its store. Returns the role's new state, and the report of what
/// was done.
fn carried<R: Role>(
    alloc: Global,
    own: Rank,
    kv: &mut Kv,
    plan: Plan<R>,
) -> Result<(R, String), Fail> {
    let Plan {
        tx,
        out,
        timers,
        state,
        next,
    } = plan;
    drop(timers);
    let text = shown(alloc, own, kv, tx, out, next, state.remembers())?;
    Ok((state, text))
}

/// Carries out the plan with which a monitor begins its role. `wanted` is the expected report.
pub(crate) fn begun<R: Role>(
    rt: &impl Abort,
    alloc: Global,
    me: &Me,
    view: View,
    epoch: Epoch,
    mut kv: Kv,
    plan: Plan<R>,
    wanted: &str,
) -> Result<Site<R>, Fail> {
    let (role, found) = carried(alloc, me.member.rank, &mut kv, plan)?;
    assert_eq!(rt; found.as_str(), wanted);
    Ok(Site {
        me: *me,
        view,
        epoch,
        kv,
        role,
    })
}

/// Carries out a plan of a monitor that was in this role before. Returns the report.
fn carried_on<R: Role>(alloc: Global, site: &mut Site<R>, plan: Plan<R>) -> Result<String, Fail> {
    let (role, text) = carried(alloc, site.me.member.rank, &mut site.kv, plan)?;
    site.role = role;
    Ok(text)
}

/// Carries out a plan of a monitor that was in this role before. `wanted` is the expected report.
pub(crate) fn done<R: Role>(
    rt: &impl Abort,
    alloc: Global,
    mut site: Site<R>,
    plan: Plan<R>,
    wanted: &str,
) -> Result<Site<R>, Fail> {
    let found = carried_on(alloc, &mut site, plan)?;
    assert_eq!(rt; found.as_str(), wanted);
    Ok(site)
}

/// Carries out what the role plans at one input. Returns the report, or why there is no plan.
fn heard<R: Role>(
    alloc: Global,
    site: &mut Site<R>,
    from: u8,
    comes: Comes,
) -> Result<String, Fail> {
    match planned(alloc, site, from, comes)? {
        None => Err("an input of this role".into()),
        Some(Ok(plan)) => carried_on(alloc, site, plan),
        Some(Err(stop)) => Ok(format!(in alloc; "{stop:?}")?),
    }
}

/// The rank of the sender, which counts for a message only; the input; and the expected report.
pub(crate) type Row<'a> = (u8, Comes, &'a str);

/// Gives a monitor the inputs one after the other, and checks each report.
pub(crate) fn all_are<R: Role>(
    rt: &impl Abort,
    alloc: Global,
    mut site: Site<R>,
    rows: &[Row<'_>],
) -> Result<Site<R>, Fail> {
    for (i, (from, comes, wanted)) in rows.iter().enumerate() {
        let found = heard(alloc, &mut site, *from, *comes)?;
        assert_eq!(rt; found.as_str(), *wanted, "{i}");
    }
    Ok(site)
}
