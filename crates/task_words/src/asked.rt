//! The rules for the arguments of a command line. They take no memory.

ghost use Rattle.std.specs.Prelude.{◌≡◌, ◌∷◌, codes, map, string_bytes};
ghost use Rattle.std.specs.List.{list_all};
ghost use Rattle.task_words.specs.Task.{AreStore, IsAsked, ParsesTask, is_word};
ghost use Rattle.task_words.specs.Words.{Reflects};

use crate::addresses::{are_addresses, count_of};
use crate::numbers::{member_of, number_of, rule_in, service_in};
use mon_types::GREATEST;

/// The longest argument that is taken, in bytes.
pub const LONGEST_WORD: usize = 4_096;

/// The most events of a made schedule.
pub const MOST_MADE: u64 = 100_000;

/// The most iterations of a client that follows, 2^61.
pub const MOST_FOLLOWED: u64 = 2_305_843_009_213_693_952;

/// Whether an argument is allowed at all: it isn't empty, isn't too long and doesn't begin with a hyphen.
fn is_word(word: &[u8]) -> bool
    ensures { result ≡ is_word word.now }
{
    match word {
        [] => false,
        [first, ..] => *first != b'-' && word.len() <= LONGEST_WORD,
    }
}

fn are_words(words: &[String]) -> bool
    ensures { result ≡ list_all (λ w. is_word (string_bytes w)) words.now }
{
    words.iter().all(|word| is_word(word.as_str().as_bytes()))
}

/// Whether these texts after `made` ask for a made schedule.
fn asks_made(texts: &[String]) -> bool
    ensures { Reflects result (ParsesTask (codes "made" ∷ map string_bytes texts.now)) }
{
    let [number, events] = texts else {
        return false;
    };
    if number_of(number.as_str().as_bytes(), 0, GREATEST).is_none() {
        return false;
    }
    number_of(events.as_str().as_bytes(), 1, MOST_MADE).is_some()
}

/// Whether these texts after `node` ask for a node.
fn asks_node(texts: &[String]) -> bool
    ensures { Reflects result (ParsesTask (codes "node" ∷ map string_bytes texts.now)) }
{
    let [rank, monitors, rule, addresses, _, _, turns] = texts else {
        return false;
    };
    let Some(member) = member_of(rank.as_str().as_bytes(), monitors.as_str().as_bytes()) else {
        return false;
    };
    if rule_in(member.monitors, rule.as_str().as_bytes()).is_none() {
        return false;
    }
    if !are_addresses(member.monitors, addresses.as_str().as_bytes()) {
        return false;
    }
    number_of(turns.as_str().as_bytes(), 1, GREATEST).is_some()
}

/// Whether these texts after `follow` ask for a client that follows.
fn asks_follow(texts: &[String]) -> bool
    ensures { Reflects result (ParsesTask (codes "follow" ∷ map string_bytes texts.now)) }
{
    let [service, addresses, turns] = texts else {
        return false;
    };
    if service_in(service.as_str()).is_none() {
        return false;
    }
    let Some(monitors) = count_of(addresses.as_str().as_bytes()) else {
        return false;
    };
    if !are_addresses(monitors, addresses.as_str().as_bytes()) {
        return false;
    }
    number_of(turns.as_str().as_bytes(), 1, MOST_FOLLOWED).is_some()
}

/// Whether these texts ask for a command on a store that takes a member and two files, and no other texts.
fn are_store(texts: &[String]) -> bool
    ensures { Reflects result (AreStore (map string_bytes texts.now)) }
{
    let [rank, monitors, _, _] = texts else {
        return false;
    };
    member_of(rank.as_str().as_bytes(), monitors.as_str().as_bytes()).is_some()
}

/// Whether these texts after `dump-paxos` ask for a dump of versions.
fn asks_versions(texts: &[String]) -> bool
    ensures { Reflects result (ParsesTask (codes "dump-paxos" ∷ map string_bytes texts.now)) }
{
    let [rank, monitors, _, _, from, to] = texts else {
        return false;
    };
    if member_of(rank.as_str().as_bytes(), monitors.as_str().as_bytes()).is_none() {
        return false;
    }
    let Some(to) = number_of(to.as_str().as_bytes(), 0, GREATEST) else {
        return false;
    };
    number_of(from.as_str().as_bytes(), 0, to).is_some()
}

/// Whether a command's name and the texts after it ask for something that the program does.
fn asks(name: &str, texts: &[String]) -> bool
    ensures { Reflects result (ParsesTask (name.now ∷ map string_bytes texts.now)) }
{
    match name {
        "replay" => texts.is_empty(),
        "made" => asks_made(texts),
        "node" => asks_node(texts),
        "follow" => asks_follow(texts),
        "scrub" => are_store(texts),
        "scrub-compare" => texts.is_empty(),
        "dump-keys" => are_store(texts),
        "dump-paxos" => asks_versions(texts),
        "store-export" => are_store(texts),
        "store-import" => are_store(texts),
        _ => false,
    }
}

/// Whether the arguments ask for something that the program does.
pub(crate) fn is_asked(words: &[String]) -> bool
    ensures { Reflects result (IsAsked words.now) }
{
    if !are_words(words) {
        return false;
    }
    let Some((name, texts)) = words.split_first() else {
        return false;
    };
    asks(name.as_str(), texts)
}
