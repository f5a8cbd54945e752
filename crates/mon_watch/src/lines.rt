//! The lines about what the notes show.

ghost use Rattle.std.specs.Prelude.{◌≡◌, ◌≤◌};

use crate::notes::Notes;
use crate::seen::Seen;
use crate::times::DiskTimes;
use crate::watched::Watch;
use mon_types::Rank;
use mon_wire::Phase;
use std::alloc::{AllocError, Global};
use std::fmt::Write;

/// The least time between two checks for silent monitors and slow syncs, in milliseconds.
const LOOK: u64 = 1000;

/// A receiver of lines.
pub trait LineReceiver {
    /// Takes a line, which is given without its end.
    fn take_line(&mut self, line: &str);

    /// Is called about once a second, so that a receiver can write lines that depend on time.
    fn rest(&mut self);
}

/// What a monitor is seen to do.
#[derive(Clone, Copy, PartialEq, Eq)]
enum QuorumRole {
    Unknown,
    Probes,
    Elects,
    Copies(u8),
    Leads(u64),
    Follows(u8, u64),
}

impl QuorumRole {
    fn of(seen: &Seen) -> QuorumRole {
        match (seen.phase, seen.leader, seen.source) {
            (Phase::Probing, _, _) => QuorumRole::Probes,
            (Phase::Electing, _, _) => QuorumRole::Elects,
            (Phase::Synchronizing, _, Some(source)) => QuorumRole::Copies(source),
            (Phase::Collecting | Phase::Active, _, _) => QuorumRole::Leads(seen.epoch),
            (Phase::Peon, Some(leader), _) => QuorumRole::Follows(leader, seen.epoch),
            _ => QuorumRole::Unknown,
        }
    }
}

/// What the last lines said, so that only changes are written.
#[derive(Clone, Copy)]
pub(crate) struct Said {
    quorum_role: QuorumRole,
    source: Option<u8>,
    /// Since when each monitor is silent about which a line says so, by rank.
    silent: [Option<u64>; 15],
    slow_a: u64,
    slow_b: u64,
    /// When silent monitors and slow syncs are checked next.
    due: u64,
}

fn put_ranks(line: &mut String, bits: u64) -> Result<(), AllocError> {
    let mut first = true;
    for rank in 0..15_u8 {
        if bits >> rank & 1 == 1 {
            if !first {
                line.push_str(",")?;
            }
            write!(line, "{rank}")?;
            first = false;
        }
    }
    Ok(())
}

fn put_quorum(line: &mut String, bits: u64) -> Result<(), AllocError> {
    if bits != 0 {
        line.push_str(" with ")?;
        put_ranks(line, bits)?;
    }
    Ok(())
}

fn quorum_role_line(
    alloc: Global,
    quorum_role: QuorumRole,
    quorum: u64,
) -> Result<String, AllocError> {
    let mut line = String::new(alloc);
    match quorum_role {
        QuorumRole::Unknown => {}
        QuorumRole::Probes => line.push_str("asks the other monitors how far they are")?,
        QuorumRole::Elects => line.push_str("takes part in an election")?,
        QuorumRole::Copies(source) => write!(line, "copies the store of monitor {source}")?,
        QuorumRole::Leads(epoch) => {
            write!(line, "leads epoch {epoch}")?;
            put_quorum(&mut line, quorum)?;
        }
        QuorumRole::Follows(leader, epoch) => {
            write!(line, "follows monitor {leader} in epoch {epoch}")?;
            put_quorum(&mut line, quorum)?;
        }
    }
    Ok(line)
}

fn slow_line(alloc: Global, disk: &str, time: u64) -> Result<String, AllocError> {
    let mut line = String::new(alloc);
    write!(line, "a sync of disk {disk} took {time} ms")?;
    Ok(line)
}

fn silent_line(alloc: Global, rank: u8) -> Result<String, AllocError> {
    let mut line = String::new(alloc);
    write!(line, "monitor {rank} is silent")?;
    Ok(line)
}

fn heard_line(alloc: Global, rank: u8, time: u64) -> Result<String, AllocError> {
    let mut line = String::new(alloc);
    write!(line, "monitor {rank} answers again after {time} ms")?;
    Ok(line)
}

/// Writes a line, if there was memory for it.
fn write_if<S: LineReceiver>(lines: &mut S, line: Result<String, AllocError>) {
    if let Ok(line) = line {
        lines.take_line(line.as_str());
    }
}

impl Said {
    /// The state before any line is written.
    pub(crate) fn new() -> Said {
        Said {
            quorum_role: QuorumRole::Unknown,
            source: None,
            silent: [None; 15],
            slow_a: 0,
            slow_b: 0,
            due: 0,
        }
    }

    /// Writes a line if the monitor has its whole store again, and one if it does something else than before.
    pub(crate) fn changes<S: LineReceiver + Drop>(&mut self, watch: &mut Watch<S>, notes: &Notes)
        ensures member { watch.new.member ≡ watch.old.member }
        ensures answered { watch.new.answered ≡ watch.old.answered }
    {
        let seen = &notes.seen;
        if self.source.is_some() && seen.source.is_none() {
            watch.lines.take_line("is whole again");
        }
        self.source = seen.source;
        let quorum_role = QuorumRole::of(seen);
        if quorum_role != self.quorum_role {
            self.quorum_role = quorum_role;
            write_if(
                &mut watch.lines,
                quorum_role_line(watch.alloc, quorum_role, seen.quorum()),
            );
        }
    }

    /// Writes a line if a monitor became silent, or was heard again.
    fn looks_at<S: LineReceiver>(
        &mut self,
        alloc: Global,
        lines: &mut S,
        rank: Rank,
        notes: &Notes,
    ) {
        let place = usize::from(rank.get());
        let contact = notes.seen.contacts[place];
        match self.silent[place] {
            None => {
                if contact.is_silent(notes.now) {
                    self.silent[place] = contact.asked;
                    write_if(lines, silent_line(alloc, rank.get()));
                }
            }
            Some(since) => {
                if !contact.is_silent(notes.now) {
                    self.silent[place] = None;
                    let time = notes.now.saturating_sub(since);
                    write_if(lines, heard_line(alloc, rank.get(), time));
                }
            }
        }
    }

    /// Writes a line for each disk that had a slow sync since the last check.
    fn looks_at_disks<S: LineReceiver>(
        &mut self,
        alloc: Global,
        lines: &mut S,
        a: DiskTimes,
        b: DiskTimes,
    ) {
        if a.slow != self.slow_a {
            self.slow_a = a.slow;
            write_if(lines, slow_line(alloc, "a", a.last_slow));
        }
        if b.slow != self.slow_b {
            self.slow_b = b.slow;
            write_if(lines, slow_line(alloc, "b", b.last_slow));
        }
    }

    /// Writes lines about slow syncs and silent monitors, at most once a second.
    pub(crate) fn passes<S: LineReceiver + Drop>(&mut self, watch: &mut Watch<S>, notes: &Notes)
        ensures member { watch.new.member ≡ watch.old.member }
        ensures answered { watch.new.answered ≡ watch.old.answered }
    {
        if notes.now < self.due {
            return;
        }
        self.due = notes.now.saturating_add(LOOK);
        let alloc = watch.alloc;
        self.looks_at_disks(alloc, &mut watch.lines, watch.a.get(), watch.b.get());
        for rank in 0..watch.member.monitors {
            self.looks_at(alloc, &mut watch.lines, Rank::known(rank), notes);
        }
        watch.lines.rest();
    }
}
