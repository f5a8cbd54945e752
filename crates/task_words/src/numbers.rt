//! The numbers, the rule and the service among the arguments.

ghost use Rattle.std.specs.Prelude.{◌≡◌, ◌≤◌, ℕ, None, IfSome, decimal};
ghost use Rattle.mon_types.specs.declared.member.Member.{Member as members};
ghost use Rattle.schedule_text.specs.Encoding.{RuleFits, rule_text};
ghost use Rattle.schedule_text.specs.Words.{service_text};
ghost use Rattle.task_words.specs.Words.{Parses};

use election_rules::Rule;
use mon_types::{Member, Rank};
use mon_wire::Service;
use schedule_text::{rule_of, service_word};

/// The number that an argument represents in decimal, if it is within these bounds.
pub(crate) fn number_of(word: &[u8], least: u64, most: u64) -> Option<u64>
    ensures { Parses decimal (λ n. (least ≤ n) × (n ≤ most)) result word.now }
{
    match schedule_text::number_of(word, least, most) {
        Ok(number) => Some(number),
        Err(_) => None,
    }
}

/// The rank and the number of monitors that two arguments represent.
pub(crate) fn member_of(rank: &[u8], monitors: &[u8]) -> Option<Member>
    ensures parsed { IfSome result (λ m. (rank.now ≡ decimal m.rank) × (monitors.now ≡ decimal m.monitors)) }
    ensures none { result ≡ None → (m : members) → rank.now ≡ decimal m.rank → monitors.now ≡ decimal m.monitors → ⊥ }
{
    let rank = number_of(rank, 0, 14)?;
    let monitors = number_of(monitors, 1, 15)?;
    Member::new(Rank::known(rank as u8), monitors as u8)
}

/// The rule that an argument names, for this many monitors.
pub(crate) fn rule_in(monitors: u8, word: &[u8]) -> Option<Rule>
    ensures { Parses rule_text (RuleFits monitors) result word.now }
{
    match rule_of(monitors, word) {
        Ok(rule) => Some(rule),
        Err(_) => None,
    }
}

/// The service that an argument names.
pub(crate) fn service_in(word: &str) -> Option<Service>
    ensures { Parses service_text (λ _. Unit {0}) result word.now }
{
    if word == service_word(Service::Kv) {
        return Some(Service::Kv);
    }
    if word == service_word(Service::Log) {
        return Some(Service::Log);
    }
    None
}
