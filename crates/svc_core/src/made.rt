//! What a command makes of a service's map.

ghost use Rattle.std.specs.Prelude.{◌≡◌, ℕ, ◌≤◌, length, [], true, false, Ok, IfOk, IfErr, IfSome};
ghost use Rattle.map_kv.specs.Made.{IsOfKv};
ghost use Rattle.map_kv.specs.Map as kv_map;
ghost use Rattle.map_kv.specs.Text as kv_text;
ghost use Rattle.map_kv.specs.declared.command.TheConstants.{MOST_KV_MAP};
ghost use Rattle.map_log.specs.Map as log_map;
ghost use Rattle.map_log.specs.Text as log_text;
ghost use Rattle.mon_bytes.specs.Makes.{Makes, RefusesAs};
ghost use Rattle.mon_bytes.specs.declared.command.Command.TheVariants as command;
ghost use Rattle.mon_msg.specs.Protocol.Services.{read_map};
ghost use Rattle.mon_msg.specs.Protocol.Value.{made, service_of};
ghost use Rattle.mon_msg.specs.Protocol.Readings.{readings_of};
ghost use Rattle.svc_core.specs.Drafts.{drafted, kv_incremental, IsShort};

use crate::outline::holds;
use crate::reading::{read_kv, read_log};
use crate::room::is_within;
use map_kv::{KvInc, KvMap, MOST_KV_MAP, MOST_KV_VALUE, make as make_kv};
use map_log::{LogInc, LogMap, make as make_log};
use mon_bytes::{Bytes, Command, CommandRefused, OutOfMemory, Text};
use mon_kv::Kv;
use mon_msg::Service;
use mon_types::Rank;
use std::alloc::Global;

/// An incremental, and the text of the map with it, which is empty if no full map is due.
#[derive(Drop)]
pub(crate) struct Draft {
    pub(crate) incremental: Bytes,
    pub(crate) text: Bytes,
}

impl Draft {
    /// A draft with an incremental alone, for a version without a full map.
    fn bare(alloc: Global, incremental: Bytes) -> Draft
        ensures incremental { result.incremental ≡ incremental }
        ensures text { result.text ≡ [] }
    {
        Draft {
            incremental,
            text: Bytes::new(Vec::new(alloc)),
        }
    }
}

/// The incremental of a set that surely fits. `None` for other commands, and if the map must be built to know whether
/// it fits.
fn sure_set(alloc: Global, kv: &Kv, command: &Command) -> Result<Option<KvInc>, OutOfMemory>
    ensures made { IfOk result
        (λ made. IfSome made (λ inc. kv_incremental (read_map (readings_of kv.now) Service.Kv) command.now ≡
        Ok inc)) }
    ensures form { IfOk result (λ made. IfSome made kv_text.IncFits) }
{
    let Command::Set { key, value } = command else {
        return Ok(None);
    };
    let len = value.as_slice().len() as u64;
    if len > MOST_KV_VALUE {
        return Ok(None);
    }
    // An entry has its key's length in one byte and its value's in four.
    let longer = key.as_slice().len() as u64 + len + 5;
    if !is_within(alloc, kv, MOST_KV_MAP - longer)? {
        return Ok(None);
    }
    Ok(Some(KvInc::Set {
        key: key.copy(alloc)?,
        value: value.copy(alloc)?,
    }))
}

/// The incremental of a removal, or `NoSuch` if the key isn't there. `None` for other commands, and if the map must be
/// built to know whether the key is there.
#[tactic(auto, using(crate::proofs::Outlines::removal, crate::proofs::Outlines::no_removal))]
fn sure_remove(alloc: Global, kv: &Kv, command: &Command) -> Result<Option<KvInc>, CommandRefused>
    ensures made { IfOk result
        (λ made. IfSome made (λ inc. kv_incremental (read_map (readings_of kv.now) Service.Kv) command.now ≡
        Ok inc)) }
    ensures form { IfOk result (λ made. IfSome made kv_text.IncFits) }
    ensures refused { IfErr result
        (λ e. RefusesAs e (kv_incremental (read_map (readings_of kv.now) Service.Kv) command.now)) }
{
    let Command::Remove { key } = command else {
        return Ok(None);
    };
    let Some(held) = holds(alloc, kv, key.as_slice())? else {
        return Ok(None);
    };
    if !held {
        return Err(CommandRefused::NoSuch);
    }
    Ok(Some(KvInc::Remove {
        key: key.copy(alloc)?,
    }))
}

/// The incremental of a command over the map that is read.
fn kv_incremental(alloc: Global, kv: &Kv, command: &Command) -> Result<KvInc, CommandRefused>
    requires { IsOfKv command.now }
    ensures made { Makes result (kv_incremental (read_map (readings_of kv.now) Service.Kv) command.now) }
    ensures form { IfOk result kv_text.IncFits }
{
    // Building the map is dear, so a set that surely fits and most removals are made without it.
    if let Some(inc) = sure_set(alloc, kv, command)? {
        return Ok(inc);
    }
    if let Some(inc) = sure_remove(alloc, kv, command)? {
        return Ok(inc);
    }
    let map = read_kv(alloc, kv)?;
    let made = make_kv(alloc, &map, command);
    drop(map);
    made
}

/// The text of a key-value map after an incremental.
fn kv_text_after(mut map: KvMap, inc: KvInc) -> Result<Bytes, OutOfMemory>
    requires { kv_text.MapIsShort (kv_map.with_inc map inc) }
    ensures { IfOk result (λ text. text ≡ kv_text.map_text (kv_map.with_inc map inc)) }
{
    let applied = map.apply(&inc);
    drop(inc);
    applied?;
    Ok(Bytes::new(map.encode()?))
}

/// The text of the cluster log after an entry.
fn log_text_after(mut map: LogMap, inc: LogInc) -> Result<Bytes, OutOfMemory>
    ensures { IfOk result (λ text. text ≡ log_text.map_text (log_map.with_inc map inc)) }
{
    let applied = map.apply(&inc);
    drop(inc);
    applied?;
    Ok(Bytes::new(map.encode()?))
}

/// The incremental, and the text of a key-value map after it.
fn kv_draft(alloc: Global, map: KvMap, inc: KvInc) -> Result<Draft, OutOfMemory>
    requires form { kv_text.IncFits inc }
    requires map { kv_text.MapIsShort (kv_map.with_inc map inc) }
    ensures incremental { IfOk result (λ d. d.incremental ≡ kv_text.inc_text inc) }
    ensures text { IfOk result (λ d. d.text ≡ kv_text.map_text (kv_map.with_inc map inc)) }
{
    let incremental = inc.encode(alloc);
    let text = kv_text_after(map, inc);
    Ok(Draft {
        incremental: Bytes::new(incremental?),
        text: text?,
    })
}

/// What a command makes if a full map is due.
fn kv_full(alloc: Global, kv: &Kv, command: &Command) -> Result<Draft, CommandRefused>
    requires { IsOfKv command.now }
    ensures made { (asked : ℕ) →
        Makes result (drafted true (made (read_map (readings_of kv.now) Service.Kv) asked command.now)) }
    ensures short { IfOk result IsShort }
{
    let map = read_kv(alloc, kv)?;
    let inc = make_kv(alloc, &map, command)?;
    Ok(kv_draft(alloc, map, inc)?)
}

/// What a command makes of the key-value map. The map is built only if a full map is due, or if the incremental can't
/// be known without it.
fn kv_made(alloc: Global, kv: &Kv, command: &Command, due: bool) -> Result<Draft, CommandRefused>
    requires { IsOfKv command.now }
    ensures made { (asked : ℕ) →
        Makes result (drafted due (made (read_map (readings_of kv.now) Service.Kv) asked command.now)) }
    ensures short { IfOk result IsShort }
{
    if due {
        return kv_full(alloc, kv, command);
    }
    let inc = kv_incremental(alloc, kv, command)?;
    let incremental = inc.encode(alloc);
    drop(inc);
    Ok(Draft::bare(alloc, Bytes::new(incremental?)))
}

/// The incremental, and the text of the cluster log after it.
fn log_draft(alloc: Global, map: LogMap, inc: LogInc) -> Result<Draft, OutOfMemory>
    requires { log_text.IncFits inc }
    ensures incremental { IfOk result (λ d. d.incremental ≡ log_text.inc_text inc) }
    ensures text { IfOk result (λ d. d.text ≡ log_text.map_text (log_map.with_inc map inc)) }
{
    let incremental = inc.encode(alloc);
    let text = log_text_after(map, inc);
    Ok(Draft {
        incremental: Bytes::new(incremental?),
        text: text?,
    })
}

/// What logging a text makes of the cluster log. The map is read only if a full map is due.
fn log_made(
    alloc: Global,
    kv: &Kv,
    text: &Text,
    asked: Rank,
    due: bool,
) -> Result<Draft, CommandRefused>
    ensures made { Makes result
        (drafted due (made (read_map (readings_of kv.now) Service.Log) asked (command.Log text.now))) }
    ensures short { IfOk result IsShort }
{
    let inc = make_log(alloc, asked, text)?;
    if due {
        let map = read_log(alloc, kv)?;
        return Ok(log_draft(alloc, map, inc)?);
    }
    let incremental = inc.encode(alloc);
    drop(inc);
    Ok(Draft::bare(alloc, Bytes::new(incremental?)))
}

/// The incremental of a command, and the map's text with it if a full map is due.
pub(crate) fn made(
    alloc: Global,
    kv: &Kv,
    command: &Command,
    asked: Rank,
    due: bool,
) -> Result<Draft, CommandRefused>
    ensures made { Makes result
        (drafted due (made (read_map (readings_of kv.now) (service_of command.now)) asked command.now)) }
    ensures short { IfOk result IsShort }
{
    match command {
        Command::Set { .. } | Command::Remove { .. } => kv_made(alloc, kv, command, due),
        Command::Log { text } => log_made(alloc, kv, text, asked, due),
    }
}
