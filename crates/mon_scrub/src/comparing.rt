ghost use Rattle.std.specs.Prelude.{◌≡◌, [], ◌++◌, string_bytes, IfOk, OnOk, if◌then◌else◌};
ghost use Rattle.mon_scrub.specs.Text.{differs, mismatch_text, mismatches_text, count_differing, prefixes, end_text, differing_text, compared};

use crate::printing::{ROOM, flag};
use crate::report::{Part, Report};
use mon_bytes::OutOfMemory;
use std::alloc::{AllocError, Global};
use std::fmt::Write;

fn differs(a: &Part, b: &Part) -> bool
    ensures { result ≡ differs a.now b.now }
{
    let same_keys = a.keys == b.keys;
    let same_digest = a.digest.as_slice() == b.digest.as_slice();
    !(same_keys && same_digest)
}

fn put_mismatch(
    alloc: Global,
    out: &mut String,
    prefix: &str,
    a: &Part,
    b: &Part,
) -> Result<(), AllocError>
    ensures { OnOk result (string_bytes out.new ≡ string_bytes out.old ++ mismatch_text prefix.now a.now b.now) }
{
    let keys = a.keys;
    let others = b.keys;
    let digest = hex::encode(alloc, a.digest.as_slice())?;
    let other = hex::encode(alloc, b.digest.as_slice())?;
    write!(
        out,
        "mismatch {prefix} keys={keys},{others} sha256={digest},{other}\n"
    )
}

/// Writes one line if two parts differ. Returns the number of lines, 0 or 1.
fn put_part(
    alloc: Global,
    out: &mut String,
    prefix: &str,
    a: &Part,
    b: &Part,
) -> Result<u32, AllocError>
    ensures text { OnOk result (string_bytes out.new ≡ string_bytes out.old
        ++ (if differs a.now b.now then mismatch_text prefix.now a.now b.now else [])) }
    ensures count { IfOk result (λ n. n ≡ (if differs a.now b.now then 1 else 0)) }
{
    if !differs(a, b) {
        return Ok(0);
    }
    put_mismatch(alloc, out, prefix, a, b)?;
    Ok(1)
}

fn put_parts(
    alloc: Global,
    out: &mut String,
    a: &[Part; 3],
    b: &[Part; 3],
) -> Result<u32, AllocError>
    ensures text { OnOk result (string_bytes out.new ≡ string_bytes out.old ++ mismatches_text prefixes a.now b.now) }
    ensures count { IfOk result (λ n. n ≡ count_differing a.now b.now) }
{
    let [kv, logm, paxos] = a;
    let [other_kv, other_logm, other_paxos] = b;
    let in_kv = put_part(alloc, out, "kv", kv, other_kv)?;
    let in_logm = put_part(alloc, out, "logm", logm, other_logm)?;
    let in_paxos = put_part(alloc, out, "paxos", paxos, other_paxos)?;
    Ok(in_kv + in_logm + in_paxos)
}

fn put_end(out: &mut String, count: u32) -> Result<(), AllocError>
    ensures { OnOk result (string_bytes out.new ≡ string_bytes out.old ++ end_text count) }
{
    write!(out, "end mismatches={count}\n")
}

/// Writes the lines of the parts that differ, and the last line.
fn put_differing(
    alloc: Global,
    out: &mut String,
    a: &[Part; 3],
    b: &[Part; 3],
) -> Result<(), AllocError>
    ensures { OnOk result (string_bytes out.new ≡ string_bytes out.old ++ differing_text a.now b.now) }
{
    let count = put_parts(alloc, out, a, b)?;
    put_end(out, count)
}

fn put_compared(alloc: Global, out: &mut String, a: &Report, b: &Report) -> Result<(), AllocError>
    ensures { OnOk result (string_bytes out.new ≡ string_bytes out.old ++ compared a.now b.now) }
{
    let (n, m) = (a.member.monitors, b.member.monitors);
    if n != m {
        return write!(out, "monitors differ {n} {m}\n");
    }
    if a.marked || b.marked {
        let (marked, other) = (flag(a.marked), flag(b.marked));
        return write!(out, "marked {marked} {other}\n");
    }
    let (last, other) = (a.last, b.last);
    if last != other {
        return write!(out, "last differ {last} {other}\n");
    }
    put_differing(alloc, out, &a.parts, &b.parts)
}

/// The text that says where two reports differ. It is one line if their numbers of monitors differ, if one of them is
/// marked, or if their last versions differ; the first of these that holds decides. Otherwise it has one line per
/// differing part, and then one line with the number of differing parts.
pub fn compare(alloc: Global, a: &Report, b: &Report) -> Result<Vec<u8>, OutOfMemory>
    ensures { IfOk result (λ bytes. bytes.items ≡ compared a.now b.now) }
{
    let mut out = String::with_capacity(alloc, ROOM)?;
    put_compared(alloc, &mut out, a, b)?;
    Ok(out.into_bytes())
}
