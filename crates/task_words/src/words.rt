ghost use Rattle.task_words.specs.Task.{Reads};

use crate::asked::is_asked;
use crate::command::command;
use crate::matched::task_in;
use crate::task::{Task, WordsStop};
use clap::error::ErrorKind;
use std::alloc::Global;

/// What the arguments ask for: `replay`; `made` with a number of at most 2^62 and a count of 1 to 100,000 events;
/// `node` with a rank, how many monitors there are, 1 to 15, their rule, their addresses by rank, the names of two
/// files, and 1 to 2^62 iterations; `follow` with a service, the addresses of 1 to 15 monitors, and 1 to 2^61
/// iterations; `scrub-compare`; or `scrub`, `dump-keys`, `dump-paxos`, `store-export` or `store-import` with a rank,
/// how many monitors there are, and the names of two files, to which `dump-paxos` adds two versions of at most 2^62,
/// the first of which isn't above the second. `Refused` is returned if and only if the arguments ask for none of these,
/// and takes no memory. `OutOfMemory` is returned only if they ask for one.
pub fn read_words(alloc: Global, words: &[String]) -> Result<Task, WordsStop>
    ensures { Reads result words.now }
{
    if !is_asked(words) {
        return Err(WordsStop::Refused);
    }
    let Ok(command) = command(alloc) else {
        return Err(WordsStop::OutOfMemory);
    };
    match command.try_get_matches_from(words) {
        Ok(matches) => task_in(alloc, &matches),
        // The arguments were accepted above, so parsing fails only if memory runs out.
        Err(e) => match e.kind() {
            ErrorKind::OutOfMemory => Err(WordsStop::OutOfMemory),
            _ => unreachable!(),
        },
    }
}
