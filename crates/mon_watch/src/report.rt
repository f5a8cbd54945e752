//! The text with which a monitor answers a client that asks what is known of it.

ghost use Rattle.std.specs.Prelude.{◌≡◌, IfOk, OnOk, string_bytes};
ghost use Rattle.serde_json.specs.Data.{array, item, no_items, put, string};
ghost use Rattle.serde_json.specs.View.{members_view, view};
ghost use Rattle.serde_json.specs.Written.{compact_text};
ghost use Rattle.mon_watch.specs.Reports.{age, asked_ages, counts, disk_data, heard_ages, maybe, phase_name, report_data, with_all, with_contacts, with_disks, with_member, with_seen, with_traffic};

use crate::contact::Contact;
use crate::notes::Notes;
use crate::seen::Seen;
use crate::times::DiskTimes;
use crate::traffic::Traffic;
use mon_bytes::OutOfMemory;
use mon_types::Member;
use mon_wire::Phase;
use serde_json::{Map, Value};
use std::alloc::Global;

/// What is known of a monitor, and of its two disks; and how many copies of datagrams its link didn't keep.
#[derive(Clone, Copy)]
pub struct Report {
    pub member: Member,
    pub notes: Notes,
    pub a: DiskTimes,
    pub b: DiskTimes,
    pub unkept: u64,
}

fn phase_name(phase: Phase) -> &'static str
    ensures { result.now ≡ phase_name phase }
{
    match phase {
        Phase::Booting => "unknown",
        Phase::Probing => "probing",
        Phase::Synchronizing => "synchronizing",
        Phase::Electing => "electing",
        Phase::Collecting => "collecting",
        Phase::Previous => "previous",
        Phase::Active => "active",
        Phase::Updating => "updating",
        Phase::Peon => "peon",
    }
}

/// Puts a member into an object.
fn add(
    alloc: Global,
    members: &mut Map<String, Value>,
    name: &str,
    value: Value,
) -> Result<(), OutOfMemory>
    ensures { OnOk result (members_view members.new.entries ≡
        put name.now (view value) (members_view members.old.entries)) }
{
    let name = String::from_str(alloc, name)?;
    drop(members.insert(name, value)?);
    Ok(())
}

fn maybe(number: Option<u64>) -> Value
    ensures { view result ≡ maybe number }
{
    match number {
        Some(number) => Value::from(number),
        None => Value::Null,
    }
}

fn counts(alloc: Global, numbers: &[u64]) -> Result<Value, OutOfMemory>
    ensures { IfOk result (λ v. view v ≡ array (counts numbers.now)) }
{
    let mut values = Vec::new(alloc);
    for number in numbers {
        values.push(Value::from(*number))?;
    }
    Ok(Value::from(values))
}

fn age(now: u64, at: Option<u64>) -> Option<u64>
    ensures { result ≡ age now at }
{
    match at {
        Some(at) => Some(now.saturating_sub(at)),
        None => None,
    }
}

fn heard_ages(alloc: Global, now: u64, contacts: &[Contact]) -> Result<Value, OutOfMemory>
    ensures { IfOk result (λ v. view v ≡ array (heard_ages now contacts.now)) }
{
    let mut values = Vec::new(alloc);
    for contact in contacts {
        values.push(maybe(age(now, contact.heard)))?;
    }
    Ok(Value::from(values))
}

fn asked_ages(alloc: Global, now: u64, contacts: &[Contact]) -> Result<Value, OutOfMemory>
    ensures { IfOk result (λ v. view v ≡ array (asked_ages now contacts.now)) }
{
    let mut values = Vec::new(alloc);
    for contact in contacts {
        values.push(maybe(age(now, contact.asked)))?;
    }
    Ok(Value::from(values))
}

/// The object of a disk.
fn disk_value(alloc: Global, times: &DiskTimes) -> Result<Value, OutOfMemory>
    ensures { IfOk result (λ v. view v ≡ disk_data times.now) }
{
    let mut members = Map::new(alloc);
    let buckets = counts(alloc, &times.buckets)?;
    add(alloc, &mut members, "buckets", buckets)?;
    add(
        alloc,
        &mut members,
        "bytes_read",
        Value::from(times.fetched),
    )?;
    add(
        alloc,
        &mut members,
        "bytes_written",
        Value::from(times.written),
    )?;
    add(
        alloc,
        &mut members,
        "greatest_ms",
        Value::from(times.greatest),
    )?;
    add(alloc, &mut members, "length", Value::from(times.length))?;
    add(alloc, &mut members, "reads", Value::from(times.reads))?;
    add(alloc, &mut members, "slow", Value::from(times.slow))?;
    add(alloc, &mut members, "syncs", Value::from(times.syncs))?;
    add(alloc, &mut members, "total_ms", Value::from(times.total))?;
    add(alloc, &mut members, "writes", Value::from(times.writes))?;
    Ok(Value::from(members))
}

fn disks_value(alloc: Global, report: &Report) -> Result<Value, OutOfMemory>
    ensures { IfOk result (λ v. view v ≡ array (item (disk_data report.now.a) (item (disk_data report.now.b) no_items))) }
{
    let mut disks = Vec::new(alloc);
    disks.push(disk_value(alloc, &report.a)?)?;
    disks.push(disk_value(alloc, &report.b)?)?;
    Ok(Value::from(disks))
}

fn phase_value(alloc: Global, phase: Phase) -> Result<Value, OutOfMemory>
    ensures { IfOk result (λ v. view v ≡ string (phase_name phase)) }
{
    Ok(Value::try_from_str(alloc, phase_name(phase))?)
}

fn add_member(
    alloc: Global,
    members: &mut Map<String, Value>,
    member: Member,
    now: u64,
) -> Result<(), OutOfMemory>
    ensures { OnOk result (members_view members.new.entries ≡ with_member member now (members_view members.old.entries)) }
{
    let monitors = u64::from(member.monitors);
    add(alloc, members, "monitors", Value::from(monitors))?;
    add(alloc, members, "ms", Value::from(now))?;
    let rank = u64::from(member.rank.get());
    add(alloc, members, "rank", Value::from(rank))
}

fn add_contacts(
    alloc: Global,
    members: &mut Map<String, Value>,
    now: u64,
    contacts: &[Contact],
) -> Result<(), OutOfMemory>
    ensures { OnOk result (members_view members.new.entries ≡ with_contacts now contacts.now (members_view members.old.entries)) }
{
    let asked = asked_ages(alloc, now, contacts)?;
    add(alloc, members, "asked_ms", asked)?;
    let heard = heard_ages(alloc, now, contacts)?;
    add(alloc, members, "heard_ms", heard)
}

fn rank_value(rank: Option<u8>) -> Value
    ensures { view result ≡ maybe rank }
{
    match rank {
        Some(rank) => Value::from(u64::from(rank)),
        None => Value::Null,
    }
}

fn add_seen(alloc: Global, members: &mut Map<String, Value>, seen: &Seen) -> Result<(), OutOfMemory>
    ensures { OnOk result (members_view members.new.entries ≡ with_seen seen.now (members_view members.old.entries)) }
{
    add(alloc, members, "elections", Value::from(seen.elections))?;
    add(alloc, members, "epoch", Value::from(seen.epoch))?;
    add(alloc, members, "leader", rank_value(seen.leader))?;
    let phase = phase_value(alloc, seen.phase)?;
    add(alloc, members, "phase", phase)?;
    add(alloc, members, "quorum", Value::from(seen.quorum()))?;
    add(alloc, members, "source", rank_value(seen.source))?;
    add(alloc, members, "version", Value::from(seen.version))
}

fn add_traffic(
    alloc: Global,
    members: &mut Map<String, Value>,
    traffic: &Traffic,
) -> Result<(), OutOfMemory>
    ensures { OnOk result (members_view members.new.entries ≡ with_traffic traffic.now (members_view members.old.entries)) }
{
    let received = counts(alloc, &traffic.received)?;
    add(alloc, members, "received", received)?;
    add(alloc, members, "refused", Value::from(traffic.refused))?;
    let sent = counts(alloc, &traffic.sent)?;
    add(alloc, members, "sent", sent)
}

fn add_disks(
    alloc: Global,
    members: &mut Map<String, Value>,
    report: &Report,
) -> Result<(), OutOfMemory>
    ensures { OnOk result (members_view members.new.entries ≡ with_disks report.now.a report.now.b (members_view members.old.entries)) }
{
    let disks = disks_value(alloc, report)?;
    add(alloc, members, "disks", disks)
}

fn add_all(
    alloc: Global,
    members: &mut Map<String, Value>,
    report: &Report,
) -> Result<(), OutOfMemory>
    ensures { OnOk result (members_view members.new.entries ≡ with_all report.now (members_view members.old.entries)) }
{
    let notes = &report.notes;
    let known = &notes.seen.contacts[..usize::from(report.member.monitors)];
    add_member(alloc, members, report.member, notes.now)?;
    add_contacts(alloc, members, notes.now, known)?;
    add_seen(alloc, members, &notes.seen)?;
    add_traffic(alloc, members, &notes.traffic)?;
    add_disks(alloc, members, report)?;
    add(alloc, members, "unkept", Value::from(report.unkept))
}

/// The object of a report.
fn report_value(alloc: Global, report: &Report) -> Result<Value, OutOfMemory>
    ensures { IfOk result (λ v. view v ≡ report_data report.now) }
{
    let mut members = Map::new(alloc);
    add_all(alloc, &mut members, report)?;
    Ok(Value::from(members))
}

/// The text of a report.
pub fn report_text(alloc: Global, report: &Report) -> Result<String, OutOfMemory>
    ensures { IfOk result (λ text. string_bytes text ≡ compact_text (report_data report.now)) }
{
    let value = report_value(alloc, report)?;
    Ok(value.to_string(alloc)?)
}
