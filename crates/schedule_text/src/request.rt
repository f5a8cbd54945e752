//! What a client asks.

ghost use Rattle.schedule_text.specs.Fields.{Is};
ghost use Rattle.schedule_text.specs.Lines.{Gives};
ghost use Rattle.schedule_text.specs.Requests.{set_at, remove_at, log_at, show_at, since_at, request_by, request_at};

use crate::fields::Fields;
use crate::refusal::{LineRefused, ScheduleKind};
use mon_wire::Request;
use std::alloc::Global;

#[tactic(auto, unfolding(crate::specs::Requests::set_at))]
fn set_at(alloc: Global, fields: &mut Fields<'_>) -> Result<Request, LineRefused>
    ensures { Gives (λ y. y) result (set_at fields.old) }
{
    let key = fields.name(alloc)?;
    let value = fields.text(alloc)?;
    Ok(Request::Set { key, value })
}

#[tactic(auto, unfolding(crate::specs::Requests::remove_at))]
fn remove_at(alloc: Global, fields: &mut Fields<'_>) -> Result<Request, LineRefused>
    ensures { Gives (λ y. y) result (remove_at fields.old) }
{
    let key = fields.name(alloc)?;
    Ok(fields.end(Request::Remove { key })?)
}

#[tactic(auto, unfolding(crate::specs::Requests::log_at))]
fn log_at(alloc: Global, fields: &mut Fields<'_>) -> Result<Request, LineRefused>
    ensures { Gives (λ y. y) result (log_at fields.old) }
{
    let text = fields.text(alloc)?;
    Ok(Request::Log { text })
}

#[tactic(auto, unfolding(crate::specs::Requests::show_at))]
fn show_at(fields: &mut Fields<'_>) -> Result<Request, ScheduleKind>
    ensures { Is (λ y. y) result (show_at fields.old) }
{
    let service = fields.service()?;
    fields.end(Request::Show { service })
}

#[tactic(auto, unfolding(crate::specs::Requests::since_at))]
fn since_at(fields: &mut Fields<'_>) -> Result<Request, ScheduleKind>
    ensures { Is (λ y. y) result (since_at fields.old) }
{
    let service = fields.service()?;
    let version = fields.version()?;
    fields.end(Request::Since { service, version })
}

fn request_by(alloc: Global, word: &[u8], fields: &mut Fields<'_>) -> Result<Request, LineRefused>
    ensures { Gives (λ y. y) result (request_by word.now fields.old) }
{
    if word == b"set".as_slice() {
        return set_at(alloc, fields);
    }
    if word == b"remove".as_slice() {
        return remove_at(alloc, fields);
    }
    if word == b"log".as_slice() {
        return log_at(alloc, fields);
    }
    if word == b"show".as_slice() {
        return Ok(show_at(fields)?);
    }
    if word == b"since".as_slice() {
        return Ok(since_at(fields)?);
    }
    Err(LineRefused::Kind(ScheduleKind::Word))
}

/// Reads a request from the remaining fields of a line: its word, and what follows that. The first faulty field is
/// refused, with its kind.
#[tactic(auto, unfolding(crate::specs::Requests::request_at))]
pub fn request_at(alloc: Global, fields: &mut Fields<'_>) -> Result<Request, LineRefused>
    ensures { Gives (λ y. y) result (request_at fields.old) }
{
    let word = fields.next()?;
    request_by(alloc, word, fields)
}
