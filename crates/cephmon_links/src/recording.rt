//! The record of a monitor, in two files. Nothing here waits for a device: what is written goes to the system's cache,
//! and isn't synced.

ghost use Rattle.std.specs.Prelude.{None, ◌≤◌, length, IfOk};

use crate::living::MonitorLives;
use crate::refused::NoDevices;
use crate::standard_error::print_of;
use byteorder::{ByteOrder, LittleEndian};
use election_rules::Rule;
use mon_bytes::Text;
use mon_disk::DeviceFile;
use mon_link::{RunClock, Sink};
use mon_name::Life;
use mon_record::{Front, LifeSink, Noting, Readings, Recorder, Recording, Tape};
use mon_types::{Member, RankSet, Stop};
use std::cell::Cell;
use std::env::{Env, FillError};
use std::fs::{File, OpenOptions, read, rename};
use std::io::{Error, ErrorKind};
use std::os::unix::fs::{FileExt, OpenOptionsExt};
use std::rc::Rc;
use std::time::Clock;
use std::{io, str};

/// The environment variable with the path of a monitor's record.
const RECORD: &str = "CEPHMON_RECORD";

/// The environment variable with the most MiB of each of its two files.
const SIZE: &str = "CEPHMON_RECORD_MIB";

const DEFAULT_MIB: u64 = 64;

const MOST_MIB: u64 = 4096;

/// What is appended to the path of the older file.
const OLDER: &str = ".1";

const MOST_PATH: usize = 4096;

/// The kinds of the entries that only a file's beginning has: what is recorded, and what the file of a disk holds.
const BEGIN: u8 = 12;

const DISK: u8 = 13;

/// The bytes of a beginning.
const BEGINNING: usize = 45;

const MAGIC: &[u8] = b"CEPHREC1";

/// Why a path is refused.
const REFUSED_PATH: &str = "more than 4,096 bytes, or not UTF-8";

const REFUSED_SIZE: &str = "not a number from 1 to 4096";

/// The paths of the record's two files and of the store's.
#[derive(Drop)]
struct Paths {
    record: String,
    older: String,
    disk_a: String,
    disk_b: String,
}

/// The two files of a record. Entries go to one of them. Once it is full, it takes the place of the older one, and a new
/// one is begun. A new life goes on in the file of the one before it.
#[derive(Drop)]
pub struct RecordFiles {
    rt: HostRuntime,
    member: Member,
    rule: Rule,
    paths: Paths,
    /// The most bytes of a file.
    most: u64,
    tag: u64,
    life: u64,
    /// The number of the file among those of this life, from 0.
    part: u64,
    /// The file, once it is open; none after one couldn't be begun.
    file: Option<File>,
    end: u64,
    /// Whether the last entry was written whole.
    is_whole: bool,
    faults: u64,
}

/// A record in two files.
pub type MonitorRecorder = Recorder<RecordFiles>;

/// The clock of a monitor. Its readings may be recorded.
pub type MonitorClock = Noting<RunClock<HostRuntime>>;

/// The lives of a monitor. What it is given may be recorded.
pub type RecordedLives = Recording<MonitorLives, RecordFiles>;

/// A record, if there is one, and the clock whose readings it notes.
#[derive(Drop)]
pub(crate) struct Recorded {
    pub recorder: Option<MonitorRecorder>,
    pub clock: MonitorClock,
}

/// The ranks of a set, with bit r for rank r.
fn bits(ranks: RankSet) -> u16 {
    let mut bits = 0;
    for rank in 0..15 {
        if ranks.has(mon_types::Rank::known(rank)) {
            bits |= 1 << rank;
        }
    }
    bits
}

/// The number of a rule, and the ranks that it names.
fn rule_numbers(rule: Rule) -> (u8, u16) {
    match rule {
        Rule::Classic => (0, 0),
        Rule::Disallow(ranks) => (1, bits(ranks)),
        Rule::Connectivity(ranks) => (2, bits(ranks)),
    }
}

/// The milliseconds since 1970, or 0 if the system has no time of day.
fn time_of_day(rt: &HostRuntime) -> u64 {
    match rt.since_1970() {
        Ok(passed) => u64::try_from(passed.as_millis()).unwrap_or(0),
        Err(_) => 0,
    }
}

/// How many bytes there are without the zeros at their end.
fn length_without_zeros(bytes: &[u8]) -> usize
    ensures { result ≤ length bytes.now }
{
    for (place, byte) in bytes.iter().enumerate().rev() {
        if *byte != 0 {
            return place + 1;
        }
    }
    0
}

impl RecordFiles {
    fn beginning(&self) -> [u8; BEGINNING] {
        let mut bytes = [0; BEGINNING];
        let (rule, ranks) = rule_numbers(self.rule);
        bytes[..8].copy_from_slice(MAGIC);
        bytes[8] = self.member.rank.get();
        bytes[9] = self.member.monitors;
        bytes[10] = rule;
        LittleEndian::write_u16(&mut bytes[11..13], ranks);
        LittleEndian::write_u64(&mut bytes[13..21], self.part);
        LittleEndian::write_u64(&mut bytes[21..29], self.life);
        LittleEndian::write_u64(&mut bytes[29..37], self.tag);
        LittleEndian::write_u64(&mut bytes[37..45], time_of_day(&self.rt));
        bytes
    }

    /// Writes an entry of the file's beginning.
    fn put_entry(&mut self, file: &File, front: Front, bytes: &[u8]) -> io::Result<()> {
        let Ok(length) = u32::try_from(bytes.len()) else {
            return Err(ErrorKind::FileTooLarge.into());
        };
        let head = front.head(length);
        file.write_all_at(&head, self.end)?;
        self.end = self.end.saturating_add(head.len() as u64);
        file.write_all_at(bytes, self.end)?;
        self.end = self.end.saturating_add(u64::from(length));
        Ok(())
    }

    /// Writes the length of a disk's file, and its bytes up to the zeros at its end; none if they take too much room.
    fn put_disk(&mut self, file: &File, party: u8, disk: Vec<u8>) -> io::Result<()> {
        let bytes = disk.as_slice();
        let front = Front {
            kind: DISK,
            party,
            who: 0,
            number: bytes.len() as u64,
        };
        let kept = &bytes[..length_without_zeros(bytes)];
        if kept.len() as u64 > self.most / 4 {
            return self.put_entry(file, front, &[]);
        }
        self.put_entry(file, front, kept)
    }

    /// The bytes of a disk's file; none if there is no such file.
    fn disk(&self, path: &str) -> io::Result<Vec<u8>> {
        match read(&self.rt, path) {
            Ok(bytes) => Ok(bytes),
            Err(said) => {
                if said.kind() == ErrorKind::NotFound {
                    Ok(Vec::new(self.rt.alloc()))
                } else {
                    Err(said)
                }
            }
        }
    }

    /// Opens the file, and writes what is recorded and what the disks hold at its end.
    fn open(&mut self) -> io::Result<File> {
        let mut options = OpenOptions::new();
        options.read(true).write(true).create(true);
        options.mode(0o600);
        let file = options.open(&self.rt, self.paths.record.as_str())?.claim()?;
        self.end = file.metadata()?.len();
        let begun = self.beginning();
        self.put_entry(&file, Front::of_kind(BEGIN, 0), &begun)?;
        let a = self.disk(self.paths.disk_a.as_str())?;
        self.put_disk(&file, 1, a)?;
        let b = self.disk(self.paths.disk_b.as_str())?;
        self.put_disk(&file, 2, b)?;
        self.is_whole = true;
        Ok(file)
    }

    /// Puts the file in the place of the older one, and begins a new one.
    fn turn(&mut self) -> io::Result<()> {
        self.file = None;
        self.part = self.part.saturating_add(1);
        rename(
            &self.rt,
            self.paths.record.as_str(),
            self.paths.older.as_str(),
        )?;
        self.file = Some(self.open()?);
        Ok(())
    }

    /// Begins the record of a life. If its file can't be begun, that is reported, and nothing of this life is recorded.
    fn begin(&mut self) {
        self.part = 0;
        self.file = None;
        match self.open() {
            Ok(file) => self.file = Some(file),
            Err(said) => print_of(&self.rt, RECORD, &said),
        }
    }

    fn put(&mut self, bytes: &[u8]) -> io::Result<usize>
        ensures { IfOk result (λ n. n ≤ length bytes.now) }
    {
        let end = self.end.saturating_add(bytes.len() as u64);
        if self.is_whole && self.file.is_some() && end > self.most {
            self.turn()?;
        }
        let Some(file) = &self.file else {
            return Err(ErrorKind::NotFound.into());
        };
        let count = file.write_at(bytes, self.end)?;
        self.end = self.end.saturating_add(count as u64);
        self.is_whole = count == bytes.len();
        Ok(count)
    }
}

impl Sink for RecordFiles {
    ghost held = { λ _. None };

    ghost faults = { λ s. s.faults };

    fn write(&mut self, bytes: &[u8]) -> Result<usize, Stop> {
        let before = self.faults;
        match self.put(bytes) {
            Ok(count) if count > 0 || bytes.is_empty() => {
                self.faults = before;
                Ok(count)
            }
            _ => {
                self.faults = before.saturating_add(1);
                Err(Stop::Failed)
            }
        }
    }
}

impl LifeSink for RecordFiles {
    fn begins(&mut self) {
        self.life = self.life.saturating_add(1);
        self.begin();
    }
}

/// The path in the environment, if there is one. A path that is refused is reported on standard error, and nothing is
/// recorded.
fn path_of_record(rt: &HostRuntime) -> Result<Option<String>, NoDevices> {
    let mut bytes = [0; MOST_PATH];
    let count = match rt.var(RECORD, &mut bytes) {
        Ok(count) => count,
        Err(FillError::NotPresent) => return Ok(None),
        Err(FillError::TooLong) => {
            print_of(rt, RECORD, &REFUSED_PATH);
            return Ok(None);
        }
    };
    let Ok(text) = str::from_utf8(&bytes[..count]) else {
        print_of(rt, RECORD, &REFUSED_PATH);
        return Ok(None);
    };
    match String::from_str(rt.alloc(), text) {
        Ok(path) => Ok(Some(path)),
        Err(_) => Err(NoDevices::OutOfMemory),
    }
}

/// The number in the bytes, if it is one of MiB that a file may have.
fn mib_in(bytes: &[u8]) -> Option<u64> {
    let text = str::from_utf8(bytes).ok()?;
    let mib = text.parse::<u64>().ok()?;
    if mib == 0 || mib > MOST_MIB {
        return None;
    }
    Some(mib)
}

/// The most bytes of a file: 64 MiB, or what the environment says. A number that is refused is reported.
fn most_of_record(rt: &HostRuntime) -> u64 {
    let mut bytes = [0; 8];
    let mib = match rt.var(SIZE, &mut bytes) {
        Ok(count) => mib_in(&bytes[..count]),
        Err(FillError::NotPresent) => Some(DEFAULT_MIB),
        Err(FillError::TooLong) => None,
    };
    if mib.is_none() {
        print_of(rt, SIZE, &REFUSED_SIZE);
    }
    mib.unwrap_or(DEFAULT_MIB).saturating_mul(1 << 20)
}

fn joined(rt: &HostRuntime, first: &str, second: &str) -> Result<String, NoDevices> {
    let Ok(mut both) = String::from_str(rt.alloc(), first) else {
        return Err(NoDevices::OutOfMemory);
    };
    match both.push_str(second) {
        Ok(()) => Ok(both),
        Err(_) => Err(NoDevices::OutOfMemory),
    }
}

/// The paths of a record and of a store.
fn paths_of(rt: &HostRuntime, record: String, a: &Text, b: &Text) -> Result<Paths, NoDevices> {
    Ok(Paths {
        older: joined(rt, record.as_str(), OLDER)?,
        disk_a: joined(rt, a.as_str(), "")?,
        disk_b: joined(rt, b.as_str(), "")?,
        record,
    })
}

/// A record on these files, and a clock whose readings it notes.
fn recorded_on(rt: &HostRuntime, files: RecordFiles) -> Result<Recorded, NoDevices> {
    let Ok(tape) = Tape::new(rt.alloc()) else {
        return Err(NoDevices::OutOfMemory);
    };
    let Ok(readings) = Rc::new(rt.alloc(), Cell::new(Readings::none())) else {
        return Err(NoDevices::OutOfMemory);
    };
    match readings.clone() {
        Ok(noted) => Ok(Recorded {
            recorder: Some(Recorder::new(files, tape, readings)),
            clock: Noting::new(RunClock::new(rt), Some(noted)),
        }),
        Err(_) => Err(NoDevices::OutOfMemory),
    }
}

/// The record of a monitor whose store is in two files, and its clock. There is a record only if the environment names a
/// path.
pub(crate) fn record_of(
    rt: &HostRuntime,
    member: Member,
    rule: Rule,
    disk_a: &Text,
    disk_b: &Text,
) -> Result<Recorded, NoDevices> {
    let Some(record) = path_of_record(rt)? else {
        return Ok(Recorded {
            recorder: None,
            clock: Noting::new(RunClock::new(rt), None),
        });
    };
    let files = RecordFiles {
        rt: *rt,
        member,
        rule,
        paths: paths_of(rt, record, disk_a, disk_b)?,
        most: most_of_record(rt),
        tag: 0,
        life: 0,
        part: 0,
        file: None,
        end: 0,
        is_whole: true,
        faults: 0,
    };
    recorded_on(rt, files)
}

/// The record, which the first life of a monitor begins, in a quorum of this tag.
pub(crate) fn begun(
    recorder: Option<MonitorRecorder>,
    tag: u64,
    life: Life,
) -> Option<MonitorRecorder> {
    let mut recorder = recorder?;
    recorder.sink.tag = tag;
    recorder.sink.life = life.get();
    recorder.sink.begin();
    Some(recorder)
}
