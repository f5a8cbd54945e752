//! Bodies of messages, copied.

ghost use Rattle.std.specs.Prelude.{◌≡◌, IfOk};

use crate::body::Body;
use crate::parts::{Place, Told};
use crate::score_table::ScoreTable;
use mon_bytes::{Entry, Items, OutOfMemory};
use mon_tx::Transaction;
use std::alloc::Global;

fn copied_table(
    table: &Option<ScoreTable>,
    alloc: Global,
) -> Result<Option<ScoreTable>, OutOfMemory>
    ensures { IfOk result (λ copied. copied ≡ table.now) }
{
    match table {
        None => Ok(None),
        Some(table) => Ok(Some(table.copy(alloc)?)),
    }
}

fn copied_told(pending: &Option<Told>) -> Result<Option<Told>, OutOfMemory>
    ensures { IfOk result (λ copied. copied ≡ pending.now) }
{
    match pending {
        None => Ok(None),
        Some(told) => Ok(Some(told.copy()?)),
    }
}

/// The fields, apart from the cookie, that CHUNK and LAST_CHUNK have in common.
struct Carried {
    place: Place,
    values: Items<Transaction>,
    entries: Items<Entry>,
}

fn copied_carried(
    place: &Place,
    values: &Items<Transaction>,
    entries: &Items<Entry>,
    alloc: Global,
) -> Result<Carried, OutOfMemory>
    ensures place { IfOk result (λ copied. copied.place ≡ place.now) }
    ensures values { IfOk result (λ copied. copied.values ≡ values.now) }
    ensures entries { IfOk result (λ copied. copied.entries ≡ entries.now) }
{
    let values = values.copy(alloc)?;
    let entries = entries.copy(alloc)?;
    Ok(Carried {
        place: place.copy(alloc)?,
        values,
        entries,
    })
}

impl Body {
    /// An equal body.
    pub fn copy(&self, alloc: Global) -> Result<Body, OutOfMemory>
        ensures { IfOk result (λ body. body ≡ self.now) }
    {
        Ok(match *self {
            Body::Probe => Body::Probe,
            Body::ProbeReply {
                quorum,
                first,
                last,
            } => Body::ProbeReply {
                quorum,
                first,
                last,
            },
            Body::Propose { ref table } => Body::Propose {
                table: copied_table(table, alloc)?,
            },
            Body::Ack => Body::Ack,
            Body::Victory { quorum } => Body::Victory { quorum },
            Body::Collect { pn, first, last } => Body::Collect { pn, first, last },
            Body::Last {
                pn,
                first,
                last,
                whole,
                from,
                ref values,
                ref pending,
            } => {
                let values = values.copy(alloc)?;
                Body::Last {
                    pn,
                    first,
                    last,
                    whole,
                    from,
                    values,
                    pending: copied_told(pending)?,
                }
            }
            Body::Begin {
                pn,
                version,
                ref value,
            } => Body::Begin {
                pn,
                version,
                value: value.copy()?,
            },
            Body::Accept { pn, version } => Body::Accept { pn, version },
            Body::Commit { from, ref values } => Body::Commit {
                from,
                values: values.copy(alloc)?,
            },
            Body::Lease { last } => Body::Lease { last },
            Body::LeaseAck { last } => Body::LeaseAck { last },
            Body::Forward { seq, ref command } => Body::Forward {
                seq,
                command: command.copy(alloc)?,
            },
            Body::Route { seq, ref reply } => Body::Route {
                seq,
                reply: reply.copy(alloc)?,
            },
            Body::GetCookieFull => Body::GetCookieFull,
            Body::GetCookieRecent { last } => Body::GetCookieRecent { last },
            Body::Cookie { full, cookie, last } => Body::Cookie { full, cookie, last },
            Body::GetChunk { cookie, ref place } => Body::GetChunk {
                cookie,
                place: place.copy(alloc)?,
            },
            Body::Chunk {
                cookie,
                ref place,
                ref values,
                ref entries,
                done,
            } => {
                let Carried {
                    place,
                    values,
                    entries,
                } = copied_carried(place, values, entries, alloc)?;
                Body::Chunk {
                    cookie,
                    place,
                    values,
                    entries,
                    done,
                }
            }
            Body::LastChunk {
                cookie,
                ref place,
                ref values,
                ref entries,
                last,
            } => {
                let Carried {
                    place,
                    values,
                    entries,
                } = copied_carried(place, values, entries, alloc)?;
                Body::LastChunk {
                    cookie,
                    place,
                    values,
                    entries,
                    last,
                }
            }
            Body::NoCookie { cookie } => Body::NoCookie { cookie },
            Body::Ping { ref table } => Body::Ping {
                table: copied_table(table, alloc)?,
            },
            Body::PingReply { ref table } => Body::PingReply {
                table: copied_table(table, alloc)?,
            },
            Body::Request { id, ref request } => Body::Request {
                id,
                request: request.copy(alloc)?,
            },
            Body::Reply { id, ref reply } => Body::Reply {
                id,
                reply: reply.copy(alloc)?,
            },
        })
    }
}
