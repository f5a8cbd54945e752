ghost use Rattle.std.specs.Prelude.{◌≡◌, ◌++◌, Ok, IfOk, OnOk, string_bytes};
ghost use Rattle.schedule_text.specs.Encoding.{HasText, rule_text, header, ended_line, schedule_text};
ghost use Rattle.schedule_text.specs.Schedule.{schedule_at};

use crate::ranks::put_ranks;
use crate::schedule::Schedule;
use election_rules::Rule;
use mon_bytes::OutOfMemory;
use std::alloc::{AllocError, Global};
use std::fmt::Write;

fn put_rule(out: &mut String, rule: Rule) -> Result<(), AllocError>
    ensures { OnOk result (string_bytes out.new ≡ string_bytes out.old ++ rule_text rule) }
{
    match rule {
        Rule::Classic => out.push_str("classic"),
        Rule::Disallow(set) => {
            out.push_str("disallow")?;
            put_ranks(out, set)
        }
        Rule::Connectivity(set) => {
            out.push_str("connectivity")?;
            put_ranks(out, set)
        }
    }
}

fn put_header(out: &mut String, schedule: &Schedule) -> Result<(), AllocError>
    ensures { OnOk result (string_bytes out.new ≡ string_bytes out.old ++ ended_line (header schedule.now.monitors schedule.now.rule)) }
{
    let monitors = schedule.monitors;
    write!(out, "monitors {monitors} ")?;
    put_rule(out, schedule.rule)?;
    out.push_str("\n")
}

/// The first line of a schedule's text and of its trace.
pub fn header_line(alloc: Global, schedule: &Schedule) -> Result<Vec<u8>, OutOfMemory>
    ensures { IfOk result (λ bytes. bytes.items ≡ ended_line (header schedule.now.monitors schedule.now.rule)) }
{
    let mut out = String::new(alloc);
    put_header(&mut out, schedule)?;
    Ok(out.into_bytes())
}

fn encoded(alloc: Global, schedule: &Schedule) -> Result<Vec<u8>, OutOfMemory>
    ensures { IfOk result (λ bytes. bytes.items ≡ schedule_text schedule.now) }
{
    let mut out = String::new(alloc);
    put_header(&mut out, schedule)?;
    for event in schedule.events.as_slice() {
        write!(out, "{event}\n")?;
    }
    Ok(out.into_bytes())
}

/// The text of a schedule that has one, which `has_text` decides.
pub fn print(alloc: Global, schedule: &Schedule) -> Result<Vec<u8>, OutOfMemory>
    requires { HasText schedule.now }
    ensures text { IfOk result (λ bytes. bytes.items ≡ schedule_text schedule.now) }

    // The text that is printed is parsed as that schedule.
    ensures again { IfOk result (λ bytes. schedule_at bytes.items ≡ Ok schedule.now) }
{
    encoded(alloc, schedule)
}
