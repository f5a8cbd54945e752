//! The command that parses accepted arguments.

ghost use Rattle.std.specs.Prelude.{◌≡◌, false, map, codes, IfOk};
ghost use Rattle.clap.specs.Words.{app_of, shape_of};
ghost use Rattle.clap.specs.declared.builder.command.Command.TheViews.{out-Command};
ghost use Rattle.task_words.specs.Commands.{with_required, with_texts, subcommand, plain, first_commands, command, follow_texts, store_texts, versions_texts};

use clap::{Arg, Command};
use std::alloc::{AllocError, Global};

static MADE_TEXTS: [&str; 2] = ["NUMBER", "EVENTS"];

static NODE_TEXTS: [&str; 7] = [
    "RANK",
    "MONITORS",
    "RULE",
    "ADDRESSES",
    "DISK_A",
    "DISK_B",
    "TURNS",
];

static FOLLOW_TEXTS: [&str; 3] = ["SERVICE", "ADDRESSES", "TURNS"];

static STORE_TEXTS: [&str; 4] = ["RANK", "MONITORS", "DISK_A", "DISK_B"];

static VERSIONS_TEXTS: [&str; 6] = ["RANK", "MONITORS", "DISK_A", "DISK_B", "FROM", "TO"];

/// A subcommand that requires these texts, in order.
fn subcommand<'a>(
    alloc: Global,
    name: &'a str,
    texts: &'a [&'a str],
) -> Result<Command<'a>, AllocError>
    ensures shape { IfOk result (λ c. shape_of c ≡ subcommand name.now (map (λ t. t.now) texts.entry.now)) }
    ensures local { IfOk result (λ c. (out-Command c).has_globals ≡ false) }
{
    let mut command = Command::new(alloc, name);
    for text in texts {
        command = command.arg(Arg::new(alloc, text).required(true))?;
    }
    Ok(command)
}

/// The command with one subcommand more, which requires these texts, in order.
// If the subcommand can't be made, what was built is dropped by a call. After a `?` the prover would go through all of
// its parts, once per subcommand of a chain.
fn with_texts<'a>(
    alloc: Global,
    command: Command<'a>,
    name: &'a str,
    texts: &'a [&'a str],
) -> Result<Command<'a>, AllocError>
    ensures { IfOk result (λ c. app_of c ≡ with_texts (app_of command.entry) name.now (map (λ t. t.now) texts.entry.now)) }
{
    match subcommand(alloc, name, texts) {
        Ok(more) => command.subcommand(more),
        Err(refused) => {
            drop(command);
            Err(refused)
        }
    }
}

/// The command with the subcommand of a client that follows.
fn with_follow<'a>(alloc: Global, command: Command<'a>) -> Result<Command<'a>, AllocError>
    ensures { IfOk result (λ c. app_of c ≡ with_texts (app_of command.entry) (codes "follow") follow_texts) }
{
    with_texts(alloc, command, "follow", FOLLOW_TEXTS.as_slice())
}

/// The command with one subcommand more, which works on a store.
fn with_store<'a>(
    alloc: Global,
    command: Command<'a>,
    name: &'a str,
) -> Result<Command<'a>, AllocError>
    ensures { IfOk result (λ c. app_of c ≡ with_texts (app_of command.entry) name.now store_texts) }
{
    with_texts(alloc, command, name, STORE_TEXTS.as_slice())
}

/// The command with the subcommand that dumps versions.
fn with_versions<'a>(alloc: Global, command: Command<'a>) -> Result<Command<'a>, AllocError>
    ensures { IfOk result (λ c. app_of c ≡ with_texts (app_of command.entry) (codes "dump-paxos") versions_texts) }
{
    with_texts(alloc, command, "dump-paxos", VERSIONS_TEXTS.as_slice())
}

/// The command with the subcommands for schedules and monitors. It has one level of subcommands, and no form of help or
/// version. Its arguments are those after the program's name.
fn first_commands<'a>(alloc: Global) -> Result<Command<'a>, AllocError>
    ensures { IfOk result (λ c. app_of c ≡ first_commands) }
{
    let plain = Command::new(alloc, "cephmon")
        .no_binary_name(true)
        .disable_help_flag(true)
        .disable_help_subcommand(true)
        .disable_version_flag(true);
    let replay = with_texts(alloc, plain, "replay", &[])?;
    let made = with_texts(alloc, replay, "made", MADE_TEXTS.as_slice())?;
    with_texts(alloc, made, "node", NODE_TEXTS.as_slice())
}

/// The command with all its subcommands.
pub(crate) fn command<'a>(alloc: Global) -> Result<Command<'a>, AllocError>
    ensures { IfOk result (λ c. app_of c ≡ command) }
{
    let first = first_commands(alloc)?;
    let follow = with_follow(alloc, first)?;
    let scrub = with_store(alloc, follow, "scrub")?;
    let compare = with_texts(alloc, scrub, "scrub-compare", &[])?;
    let keys = with_store(alloc, compare, "dump-keys")?;
    let versions = with_versions(alloc, keys)?;
    let export = with_store(alloc, versions, "store-export")?;
    with_store(alloc, export, "store-import")
}
