//! The first line.

ghost use Rattle.std.specs.Prelude.{◌≡◌, ◌≤◌, IfOk};
ghost use Rattle.std.specs.Option.{option_copied};
ghost use Rattle.schedule_text.specs.Fields.{Is, Steps, field_at};
ghost use Rattle.schedule_text.specs.Schedule.{disallow_of, connectivity_of, rule_of, monitors_at, header_at};

use crate::fields::{Fields, cut};
use crate::ranks::set_of;
use crate::refusal::ScheduleKind;
use election_rules::Rule;

#[tactic(auto, unfolding(crate::specs::Schedule::disallow_of))]
fn disallow_of(monitors: u8, ranks: Option<&[u8]>) -> Result<Rule, ScheduleKind>
    ensures { Is (λ rule. rule) result (disallow_of monitors (option_copied ranks.entry)) }
{
    if ranks.is_none() {
        return Err(ScheduleKind::Header);
    }
    let set = set_of(monitors, ranks)?;
    Ok(Rule::Disallow(set))
}

#[tactic(auto, unfolding(crate::specs::Schedule::connectivity_of))]
fn connectivity_of(monitors: u8, ranks: Option<&[u8]>) -> Result<Rule, ScheduleKind>
    ensures { Is (λ rule. rule) result (connectivity_of monitors (option_copied ranks.entry)) }
{
    let set = set_of(monitors, ranks)?;
    Ok(Rule::Connectivity(set))
}

/// The rule that the field names, for this many monitors.
#[tactic(auto, unfolding(crate::specs::Schedule::rule_of))]
pub fn rule_of(monitors: u8, field: &[u8]) -> Result<Rule, ScheduleKind>
    ensures { Is (λ rule. rule) result (rule_of monitors field.now) }
{
    let (word, ranks) = cut(b'=', field);
    if word == b"classic".as_slice() {
        return match ranks {
            None => Ok(Rule::Classic),
            Some(_) => Err(ScheduleKind::Word),
        };
    }
    if word == b"disallow".as_slice() {
        return disallow_of(monitors, ranks);
    }
    if word == b"connectivity".as_slice() {
        return connectivity_of(monitors, ranks);
    }
    Err(ScheduleKind::Header)
}

#[tactic(auto, unfolding(crate::specs::Fields::field_at))]
fn rule(monitors: u8, fields: &mut Fields<'_>) -> Result<Rule, ScheduleKind>
    ensures { Steps (λ rule. rule) result fields.new (field_at (rule_of monitors) fields.old) }
{
    let field = fields.next()?;
    rule_of(monitors, field)
}

#[tactic(auto, unfolding(crate::specs::Schedule::monitors_at))]
fn monitors_at(fields: &mut Fields<'_>) -> Result<(u8, Rule), ScheduleKind>
    ensures value { Is (λ x. x) result (monitors_at fields.old) }
    ensures most { IfOk result (λ x. x.0 ≤ 15) }
{
    let monitors = fields.number(1, 15)?;
    let monitors = monitors as u8;
    let rule = rule(monitors, fields)?;
    fields.end((monitors, rule))
}

/// How many monitors the line names, and their rule. Every `Err` is a first line that isn't of its form.
#[tactic(auto, unfolding(crate::specs::Schedule::header_at))]
pub fn header_at(line: &[u8]) -> Result<(u8, Rule), ScheduleKind>
    ensures value { Is (λ x. x) result (header_at line.now) }
    ensures most { IfOk result (λ x. x.0 ≤ 15) }
{
    let mut fields = Fields::new(line);
    let word = fields.next()?;
    if word != b"monitors".as_slice() {
        return Err(ScheduleKind::Header);
    }
    monitors_at(&mut fields)
}
