//! What clients read.

ghost use Rattle.std.specs.Prelude.{◌≡◌, unwrap_or, IfOk};
ghost use Rattle.mon_msg.specs.Protocol.Readings.{readings_of};
ghost use Rattle.mon_msg.specs.Protocol.Reads.{since as changes_since, read};
ghost use Rattle.mon_plan.specs.Leaves.{Leaves};
ghost use Rattle.mon_client.specs.Rows.{ByRow, unreadable};

use crate::answers::answered;
use crate::here::Here;
use mon_bytes::OutOfMemory;
use mon_kv::Kv;
use mon_msg::plan::Sent;
use mon_msg::{Clients, Plan, Reply, RoleStop, Service, Session, View};
use mon_stored::Stored;
use mon_types::Version;
use std::alloc::Global;

/// The reply to a client if nothing may be read now: the monitor is in no quorum, or its version isn't readable.
pub fn unreadable(alloc: Global, kv: &Kv, view: &View) -> Option<Reply>
    ensures { result ≡ unreadable (readings_of kv.now) view.now }
{
    if !view.phase.is_member() {
        return Some(Reply::Unavailable);
    }
    if !view.readable {
        return Some(Reply::NotReadable {
            has: Stored::of(alloc, kv).last(),
            lease: view.standing,
        });
    }
    None
}

/// The reply to a client that asks what changed after a version.
fn changes_reply(here: &Here<'_>, service: Service, version: Version) -> Result<Reply, OutOfMemory>
    ensures { IfOk result (λ reply. reply ≡
        unwrap_or (unreadable (readings_of here.now.kv.now) here.now.view.now)
        (changes_since (readings_of here.now.kv.now) service version)) }
{
    match unreadable(here.alloc, here.kv, here.view) {
        Some(reply) => Ok(reply),
        None => svc_core::since(here.alloc, here.kv, service, version.get()),
    }
}

/// A client asks what changed a service's map after a version.
pub(crate) fn since(
    here: &Here<'_>,
    clients: Clients,
    session: Session,
    service: Service,
    version: Version,
) -> Result<Plan<Clients>, RoleStop>
    ensures plans { ByRow here.now clients
        (read here.now.me.now here.now.time session (λ w. changes_since w service version)) result }
    ensures leaves { IfOk result (λ plan. Leaves here.now.view.now.phase plan.next plan.tx) }
{
    let reply = changes_reply(here, service, version)?;
    Ok(answered(here.alloc, clients, Sent::Reply { to: session, reply })?)
}
