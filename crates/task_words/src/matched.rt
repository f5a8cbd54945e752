//! The task that parsed arguments ask for.

ghost use Rattle.std.specs.Prelude.{◌≡◌, ◌≤◌, Some, ◌∷◌, [], ℕ, List, IfOk, codes, decimal, length};
ghost use Rattle.std.specs.List.{AllByRecursion};
ghost use Rattle.clap.specs.Words.{found_of, first_of, rows_of, subcommand_of, subcommand_rows_of};
ghost use Rattle.election_rules.specs.declared.rule.Rule.{Rule as rules};
ghost use Rattle.mon_link.specs.declared.udp.Address.{Address as places};
ghost use Rattle.mon_types.specs.declared.member.Member.{Member as members};
ghost use Rattle.mon_wire.specs.declared.request.Service.{Service as services};
ghost use Rattle.schedule_text.specs.Encoding.{RuleFits, rule_text};
ghost use Rattle.schedule_text.specs.Words.{service_text};
ghost use Rattle.task_words.specs.Addresses.{IsAddress, addresses_text};
ghost use Rattle.task_words.specs.Commands.{command, follow_texts, made_texts, node_texts, store_texts, versions_texts};
ghost use Rattle.task_words.specs.Matches.{AreTexts, IsFound, IsGiven, IsText};
ghost use Rattle.task_words.specs.Task.{Asks, HasWords, task_on, words_of};
ghost use Rattle.task_words.specs.declared.task.Task.{Task as tasks};
ghost use Rattle.task_words.specs.declared.task.Task.TheVariants as task;

use crate::addresses::{addresses_of, count_of};
use crate::asked::{MOST_FOLLOWED, MOST_MADE};
use crate::numbers::{member_of, number_of, rule_in, service_in};
use crate::task::{StoreTask, Task, WordsStop};
use clap::ArgMatches;
use election_rules::Rule;
use mon_bytes::{Items, Text};
use mon_link::Address;
use mon_types::{GREATEST, Member};
use mon_wire::Service;
use std::alloc::Global;

/// The text that was found under this id. It is there, since it is required.
fn text_in<'a>(found: &ArgMatches<'a>, id: &str) -> Result<&'a str, WordsStop>
    ensures { (text : List ℕ) → IsFound (rows_of (found_of found.now)) id.now text → IsText text result }
{
    found.get_str(id).ok_or(WordsStop::Refused)
}

fn number_in(found: &ArgMatches<'_>, id: &str, least: u64, most: u64) -> Result<u64, WordsStop>
    ensures given { (n : ℕ) → least ≤ n → n ≤ most → IsFound (rows_of (found_of found.now)) id.now (decimal n) → IsGiven n result }
    ensures most { IfOk result (λ n. n ≤ most) }
{
    let text = text_in(found, id)?;
    number_of(text.as_bytes(), least, most).ok_or(WordsStop::Refused)
}

fn member_in(found: &ArgMatches<'_>) -> Result<Member, WordsStop>
    ensures { (m : members) → IsFound (rows_of (found_of found.now)) (codes "RANK") (decimal m.rank)
        → IsFound (rows_of (found_of found.now)) (codes "MONITORS") (decimal m.monitors) → IsGiven m result }
{
    let rank = text_in(found, "RANK")?;
    let monitors = text_in(found, "MONITORS")?;
    member_of(rank.as_bytes(), monitors.as_bytes()).ok_or(WordsStop::Refused)
}

fn rule_found(found: &ArgMatches<'_>, monitors: u8) -> Result<Rule, WordsStop>
    ensures { (rule : rules) → RuleFits monitors rule → IsFound (rows_of (found_of found.now)) (codes "RULE") (rule_text rule) → IsGiven rule result }
{
    let text = text_in(found, "RULE")?;
    rule_in(monitors, text.as_bytes()).ok_or(WordsStop::Refused)
}

fn service_found(found: &ArgMatches<'_>) -> Result<Service, WordsStop>
    ensures { (service : services) → IsFound (rows_of (found_of found.now)) (codes "SERVICE") (service_text service) → IsGiven service result }
{
    let text = text_in(found, "SERVICE")?;
    service_in(text).ok_or(WordsStop::Refused)
}

/// The addresses of this number of monitors.
fn addresses_in(
    alloc: Global,
    found: &ArgMatches<'_>,
    monitors: u8,
) -> Result<Items<Address>, WordsStop>
    ensures { (addresses : List places) → 1 ≤ monitors → length addresses ≡ monitors → AllByRecursion IsAddress addresses
        → IsFound (rows_of (found_of found.now)) (codes "ADDRESSES") (addresses_text addresses) → IsGiven addresses result }
{
    let text = text_in(found, "ADDRESSES")?;
    addresses_of(alloc, monitors, text.as_bytes())
}

/// The addresses of 1 to 15 monitors.
fn all_addresses_in(alloc: Global, found: &ArgMatches<'_>) -> Result<Items<Address>, WordsStop>
    ensures { (addresses : List places) → 1 ≤ length addresses → length addresses ≤ 15 → AllByRecursion IsAddress addresses
        → IsFound (rows_of (found_of found.now)) (codes "ADDRESSES") (addresses_text addresses) → IsGiven addresses result }
{
    let text = text_in(found, "ADDRESSES")?;
    match count_of(text.as_bytes()) {
        Some(monitors) => addresses_in(alloc, found, monitors),
        None => Err(WordsStop::Refused),
    }
}

/// A file's name.
fn path_in(alloc: Global, found: &ArgMatches<'_>, id: &str) -> Result<Text, WordsStop>
    ensures { (path : List ℕ) → IsFound (rows_of (found_of found.now)) id.now path → IsGiven path result }
{
    let text = text_in(found, id)?;
    let Ok(bytes) = Vec::from_slice(alloc, text.as_bytes()) else {
        return Err(WordsStop::OutOfMemory);
    };
    Text::new(bytes).ok_or(WordsStop::Refused)
}

/// The task of the arguments after `made`.
fn made_in(found: &ArgMatches<'_>) -> Result<Task, WordsStop>
    ensures { (number events : ℕ) → HasWords (task.Made number events)
        → AreTexts (rows_of (found_of found.now)) made_texts (decimal number ∷ decimal events ∷ [])
        → IsGiven (task.Made number events) result }
{
    let number = number_in(found, "NUMBER", 0, GREATEST)?;
    let events = number_in(found, "EVENTS", 1, MOST_MADE)?;
    Ok(Task::Made {
        number,
        events: events as u32,
    })
}

/// The task of the arguments after `node`.
fn node_in(alloc: Global, found: &ArgMatches<'_>) -> Result<Task, WordsStop>
    ensures { (member : members) (rule : rules) (addresses : List places) (disk_a disk_b : List ℕ) (turns : ℕ)
        → HasWords (task.Node member rule addresses disk_a disk_b turns)
        → AreTexts (rows_of (found_of found.now)) node_texts
        (decimal member.rank ∷ decimal member.monitors ∷ rule_text rule ∷ addresses_text addresses ∷ disk_a ∷ disk_b ∷ decimal turns ∷ [])
        → IsGiven (task.Node member rule addresses disk_a disk_b turns) result }
{
    let member = member_in(found)?;
    let rule = rule_found(found, member.monitors)?;
    let addresses = addresses_in(alloc, found, member.monitors)?;
    let disk_a = path_in(alloc, found, "DISK_A")?;
    let disk_b = path_in(alloc, found, "DISK_B")?;
    let turns = number_in(found, "TURNS", 1, GREATEST)?;
    Ok(Task::Node {
        member,
        rule,
        addresses,
        disk_a,
        disk_b,
        turns,
    })
}

/// The task of the arguments after `follow`.
fn follow_in(alloc: Global, found: &ArgMatches<'_>) -> Result<Task, WordsStop>
    ensures { (service : services) (addresses : List places) (turns : ℕ) → HasWords (task.Follow service addresses turns)
        → AreTexts (rows_of (found_of found.now)) follow_texts (service_text service ∷ addresses_text addresses ∷ decimal turns ∷ [])
        → IsGiven (task.Follow service addresses turns) result }
{
    let service = service_found(found)?;
    let addresses = all_addresses_in(alloc, found)?;
    let turns = number_in(found, "TURNS", 1, MOST_FOLLOWED)?;
    Ok(Task::Follow {
        service,
        addresses,
        turns,
    })
}

/// The task on a store of the arguments after the name of its command.
fn store_in(alloc: Global, found: &ArgMatches<'_>, what: StoreTask) -> Result<Task, WordsStop>
    ensures { (member : members) (disk_a disk_b : List ℕ)
        → AreTexts (rows_of (found_of found.now)) store_texts (decimal member.rank ∷ decimal member.monitors ∷ disk_a ∷ disk_b ∷ [])
        → IsGiven (task_on what member disk_a disk_b) result }
{
    let member = member_in(found)?;
    let disk_a = path_in(alloc, found, "DISK_A")?;
    let disk_b = path_in(alloc, found, "DISK_B")?;
    Ok(what.on(member, disk_a, disk_b))
}

/// The task of the arguments after `dump-paxos`.
fn dump_paxos_in(alloc: Global, found: &ArgMatches<'_>) -> Result<Task, WordsStop>
    ensures { (member : members) (disk_a disk_b : List ℕ) (from to : ℕ) → HasWords (task.DumpPaxos member disk_a disk_b from to)
        → AreTexts (rows_of (found_of found.now)) versions_texts
        (decimal member.rank ∷ decimal member.monitors ∷ disk_a ∷ disk_b ∷ decimal from ∷ decimal to ∷ [])
        → IsGiven (task.DumpPaxos member disk_a disk_b from to) result }
{
    let member = member_in(found)?;
    let disk_a = path_in(alloc, found, "DISK_A")?;
    let disk_b = path_in(alloc, found, "DISK_B")?;
    let to = number_in(found, "TO", 0, GREATEST)?;
    let from = number_in(found, "FROM", 0, to)?;
    Ok(Task::DumpPaxos {
        member,
        disk_a,
        disk_b,
        from,
        to,
    })
}

/// The task of the subcommand that was met.
pub(crate) fn task_in(alloc: Global, matches: &ArgMatches<'_>) -> Result<Task, WordsStop>
    ensures { (t : tasks) → Asks t (words_of t) → subcommand_rows_of matches.now ≡ subcommand_of command (words_of t) → IsGiven t result }
{
    let Some((name, found)) = matches.subcommand() else {
        return Err(WordsStop::Refused);
    };
    match name {
        "replay" => Ok(Task::Replay),
        "made" => made_in(found),
        "node" => node_in(alloc, found),
        "follow" => follow_in(alloc, found),
        "scrub" => store_in(alloc, found, StoreTask::Scrub),
        "scrub-compare" => Ok(Task::ScrubCompare),
        "dump-keys" => store_in(alloc, found, StoreTask::DumpKeys),
        "dump-paxos" => dump_paxos_in(alloc, found),
        "store-export" => store_in(alloc, found, StoreTask::Export),
        "store-import" => store_in(alloc, found, StoreTask::Import),
        _ => Err(WordsStop::Refused),
    }
}
