ghost use Rattle.std.specs.Prelude.{◌≡◌, ◌≤◌, ◌++◌, IfOk};
ghost use Rattle.mon_scrub.specs.Text.{fields_of, report_text};
ghost use Rattle.mon_scrub.specs.Reading.{Steps, Is, part_at, parts_at, member_at, last_at, report_at, two_at, reports_at};

use crate::refusal::ReportRefused;
use crate::report::{Part, Report};
use crate::unread::Unread;
use mon_types::{GREATEST, Member, Rank};

/// The most bytes that two reports are read from.
const MOST_REPORT: usize = 4096;

#[tactic(auto, unfolding(crate::specs::Reading::part_at))]
fn part_at(unread: &mut Unread<'_>, line: u32, name: &[u8]) -> Result<Part, ReportRefused>
    ensures { Steps (λ p. p) result unread.new (part_at line name.now unread.old) }
{
    unread.text(line, name)?;
    let keys = unread.number(line, b' ', 0, 4294967295)?;
    unread.text(line, b"sha256=")?;
    let digest = unread.digest(line)?;
    Ok(Part {
        keys: keys as u32,
        digest,
    })
}

#[tactic(auto, unfolding(crate::specs::Reading::parts_at))]
fn parts_at(unread: &mut Unread<'_>, line: u32) -> Result<[Part; 3], ReportRefused>
    requires { line ≤ 6 }
    ensures { Steps (λ ps. ps) result unread.new (parts_at line unread.old) }
{
    let kv = part_at(unread, line, b"kv keys=")?;
    let logm = part_at(unread, line + 1, b"logm keys=")?;
    let paxos = part_at(unread, line + 2, b"paxos keys=")?;
    Ok([kv, logm, paxos])
}

#[tactic(auto, unfolding(crate::specs::Reading::member_at))]
fn member_at(unread: &mut Unread<'_>, line: u32) -> Result<Member, ReportRefused>
    ensures { Steps (λ m. (m.rank, m.monitors)) result unread.new (member_at line unread.old) }
{
    unread.text(line, b"scrub rank=")?;
    let rank = unread.number(line, b' ', 0, 14)?;
    unread.text(line, b"monitors=")?;
    let monitors = unread.number(line, b' ', rank + 1, 15)?;
    Ok(Member {
        rank: Rank::known(rank as u8),
        monitors: monitors as u8,
    })
}

#[tactic(auto, unfolding(crate::specs::Reading::last_at))]
fn last_at(unread: &mut Unread<'_>, line: u32) -> Result<(u64, bool), ReportRefused>
    ensures { Steps (λ x. x) result unread.new (last_at line unread.old) }
{
    unread.text(line, b"last=")?;
    let last = unread.number(line, b' ', 0, GREATEST)?;
    unread.text(line, b"marked=")?;
    let marked = unread.number(line, b'\n', 0, 1)?;
    Ok((last, marked == 1))
}

#[tactic(auto, unfolding(crate::specs::Reading::report_at))]
fn report_at(unread: &mut Unread<'_>, line: u32) -> Result<Report, ReportRefused>
    requires { line ≤ 5 }
    ensures { Steps fields_of result unread.new (report_at line unread.old) }
{
    let member = member_at(unread, line)?;
    let (last, marked) = last_at(unread, line)?;
    let parts = parts_at(unread, line + 1)?;
    Ok(Report {
        member,
        last,
        marked,
        parts,
    })
}

#[tactic(auto, unfolding(crate::specs::Reading::two_at))]
fn two_at(bytes: &[u8]) -> Result<(Report, Report), ReportRefused>
    ensures { Is (λ x. (fields_of x.0, fields_of x.1)) result (two_at bytes.now) }
{
    let mut unread = Unread::new(bytes);
    let first = report_at(&mut unread, 1)?;
    let second = report_at(&mut unread, 5)?;
    if unread.is_empty() {
        Ok((first, second))
    } else {
        Err(ReportRefused::Report { line: 9 })
    }
}

#[tactic(auto, unfolding(crate::specs::Reading::reports_at))]
fn read(bytes: &[u8]) -> Result<(Report, Report), ReportRefused>
    ensures { Is (λ x. (fields_of x.0, fields_of x.1)) result (reports_at bytes.now) }
{
    if bytes.len() > MOST_REPORT {
        return Err(ReportRefused::Report { line: 0 });
    }
    two_at(bytes)
}

/// Two reports, from their texts one after the other. It takes no memory, and never returns `OutOfMemory`.
pub fn parse(bytes: &[u8]) -> Result<(Report, Report), ReportRefused>
    // If reading succeeds, the bytes are the texts of the two reports.
    ensures found { IfOk result (λ x. bytes.now ≡ report_text x.0 ++ report_text x.1) }

    // The result is the two reports, or the first line at fault.
    ensures exact { Is (λ x. (fields_of x.0, fields_of x.1)) result (reports_at bytes.now) }
{
    read(bytes)
}
