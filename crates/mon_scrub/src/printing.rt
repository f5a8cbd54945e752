ghost use Rattle.std.specs.Prelude.{◌≡◌, ◌++◌, string_bytes, IfOk, OnOk};
ghost use Rattle.trace_text.specs.Words.{flag_text};
ghost use Rattle.mon_scrub.specs.Text.{member_text, last_text, part_text, parts_text, prefixes, report_text};

use crate::report::{Part, Report};
use mon_bytes::OutOfMemory;
use mon_types::Member;
use std::alloc::{AllocError, Global};
use std::fmt::Write;

/// No report has more bytes.
pub(crate) const ROOM: usize = 512;

pub(crate) fn flag(marked: bool) -> &'static str
    ensures { result.now ≡ flag_text marked }
{
    if marked { "1" } else { "0" }
}

fn put_member(out: &mut String, member: Member) -> Result<(), AllocError>
    ensures { OnOk result (string_bytes out.new ≡ string_bytes out.old ++ member_text member.rank member.monitors) }
{
    let rank = member.rank.get();
    let monitors = member.monitors;
    write!(out, "scrub rank={rank} monitors={monitors}")
}

fn put_last(out: &mut String, last: u64, marked: bool) -> Result<(), AllocError>
    ensures { OnOk result (string_bytes out.new ≡ string_bytes out.old ++ last_text last marked) }
{
    let marked = flag(marked);
    write!(out, " last={last} marked={marked}\n")
}

fn put_part(alloc: Global, out: &mut String, prefix: &str, part: &Part) -> Result<(), AllocError>
    ensures { OnOk result (string_bytes out.new ≡ string_bytes out.old ++ part_text prefix.now part.now) }
{
    let keys = part.keys;
    let digest = hex::encode(alloc, part.digest.as_slice())?;
    write!(out, "{prefix} keys={keys} sha256={digest}\n")
}

fn put_parts(alloc: Global, out: &mut String, parts: &[Part; 3]) -> Result<(), AllocError>
    ensures { OnOk result (string_bytes out.new ≡ string_bytes out.old ++ parts_text prefixes parts.now) }
{
    let [kv, logm, paxos] = parts;
    put_part(alloc, out, "kv", kv)?;
    put_part(alloc, out, "logm", logm)?;
    put_part(alloc, out, "paxos", paxos)
}

/// The text of a report: four lines.
pub fn print(alloc: Global, report: &Report) -> Result<Vec<u8>, OutOfMemory>
    ensures { IfOk result (λ bytes. bytes.items ≡ report_text report.now) }
{
    let mut out = String::with_capacity(alloc, ROOM)?;
    put_member(&mut out, report.member)?;
    put_last(&mut out, report.last, report.marked)?;
    put_parts(alloc, &mut out, &report.parts)?;
    Ok(out.into_bytes())
}
