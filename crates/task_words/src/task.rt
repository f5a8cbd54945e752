use election_rules::Rule;
use mon_bytes::{Items, OutOfMemory, Text};
use mon_link::Address;
use mon_types::Member;
use mon_wire::Service;
use thiserror::Error;

/// What the program is to do.
#[derive(Drop)]
pub enum Task {
    /// Runs the schedule that the source has.
    Replay,
    /// Runs the schedule that is made of a number, at most 2^62, with this many events, 1 to 100,000.
    Made {
        number: u64,
        events: u32,
    },
    /// Serves as a monitor, from two files, for this many iterations at most, 1 to 2^62. The addresses are those of
    /// all monitors, by rank.
    Node {
        member: Member,
        rule: Rule,
        addresses: Items<Address>,
        disk_a: Text,
        disk_b: Text,
        turns: u64,
    },
    /// Keeps a client's copy of a service's map, for at most this number of iterations, 1 to 2^61. The addresses are
    /// those of all monitors, 1 to 15, by rank.
    Follow {
        service: Service,
        addresses: Items<Address>,
        turns: u64,
    },
    /// Writes the report of the store on two files.
    Scrub {
        member: Member,
        disk_a: Text,
        disk_b: Text,
    },
    /// Reads two reports from the source, and writes where they differ.
    ScrubCompare,
    /// Writes one line per key of the store on two files.
    DumpKeys {
        member: Member,
        disk_a: Text,
        disk_b: Text,
    },
    /// Writes the versions of Paxos that the store on two files keeps, from one version to another. The second is at
    /// most 2^62, and not below the first.
    DumpPaxos {
        member: Member,
        disk_a: Text,
        disk_b: Text,
        from: u64,
        to: u64,
    },
    /// Writes the export of the store on two files.
    StoreExport {
        member: Member,
        disk_a: Text,
        disk_b: Text,
    },
    /// Reads an export from the source, and makes a store of it in two files.
    StoreImport {
        member: Member,
        disk_a: Text,
        disk_b: Text,
    },
}

/// What is done with a member's store, by a command that takes no other arguments.
#[derive(Clone, Copy)]
pub(crate) enum StoreTask {
    Scrub,
    DumpKeys,
    Export,
    Import,
}

impl StoreTask {
    ghost use Rattle.std.specs.Prelude.{◌≡◌};
    ghost use Rattle.task_words.specs.Task.{task_on};

    /// The task with the store on two files.
    pub(crate) fn on(self, member: Member, disk_a: Text, disk_b: Text) -> Task
        ensures { result ≡ task_on self member disk_a disk_b }
    {
        match self {
            StoreTask::Scrub => Task::Scrub {
                member,
                disk_a,
                disk_b,
            },
            StoreTask::DumpKeys => Task::DumpKeys {
                member,
                disk_a,
                disk_b,
            },
            StoreTask::Export => Task::StoreExport {
                member,
                disk_a,
                disk_b,
            },
            StoreTask::Import => Task::StoreImport {
                member,
                disk_a,
                disk_b,
            },
        }
    }
}

/// Why arguments gave no task.
#[derive(Clone, Copy, Debug, PartialEq, Eq, Error)]
pub enum WordsStop {
    /// They ask for no task.
    #[error("words refused")]
    Refused,
    /// They ask for a task, and memory ran out.
    #[error("out of memory")]
    OutOfMemory,
}

impl From<OutOfMemory> for WordsStop {
    ghost use Rattle.std.specs.Prelude.{◌≡◌};
    ghost use Rattle.task_words.specs.declared.task.WordsStop.TheVariants.{OutOfMemory as no_memory};

    ghost from_gives = { λ _ e. e ≡ no_memory };

    fn from(_e: OutOfMemory) -> WordsStop {
        WordsStop::OutOfMemory
    }
}
