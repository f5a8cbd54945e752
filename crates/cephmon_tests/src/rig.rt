//! Runs of the program as a text. A line that begins with `> ` gives something to the next run, or asks for a run. What a
//! run sent, how long it waited, what it wrote and its status follow the line that asks for it.

use cephmon_run::{Ended, Status, run};
use mon_bytes::Bytes;
use mon_disk::{Disk, MemoryDisk, NodeDisks};
use mon_link::{Got, ListClock, MemoryLink, MemorySink, MemorySource, Outgoing, Peer};
use mon_types::{GREATEST, Moment, Rank};
use std::alloc::Global;
use std::fmt::Write;
use std::mem;
use std::test::Fail;

/// What the next run is given, and the disks that the last one left.
#[derive(Drop)]
struct Rig {
    input: Vec<u8>,
    got: Vec<Got>,
    /// What the clock shows, in milliseconds.
    readings: Vec<u64>,
    /// The numbers of the calls that fail, from 1.
    failing_reads: Vec<u64>,
    failing_writes: Vec<u64>,
    failing_receives: Vec<u64>,
    failing_sends: Vec<u64>,
    disks: NodeDisks<MemoryDisk>,
}

fn empty_rig(alloc: Global) -> Rig {
    Rig {
        input: Vec::new(alloc),
        got: Vec::new(alloc),
        readings: Vec::new(alloc),
        failing_reads: Vec::new(alloc),
        failing_writes: Vec::new(alloc),
        failing_receives: Vec::new(alloc),
        failing_sends: Vec::new(alloc),
        disks: empty_disks(alloc),
    }
}

fn empty_disks(alloc: Global) -> NodeDisks<MemoryDisk> {
    NodeDisks {
        a: MemoryDisk::new(alloc),
        b: MemoryDisk::new(alloc),
    }
}

/// What hexadecimal digits encode. `01*9` is nine times the byte 1, and `-` is no byte.
fn bytes_of(alloc: Global, digits: &str) -> Result<Vec<u8>, Fail> {
    let digits = if digits == "-" { "" } else { digits };
    let (digits, count) = digits.split_once('*').unwrap_or((digits, "1"));
    let once = hex::decode(alloc, digits)?;
    Ok(once.repeat(alloc, count.parse::<usize>()?)?)
}

fn numbers(alloc: Global, words: &str) -> Result<Vec<u64>, Fail> {
    let mut numbers = Vec::new(alloc);
    for word in words.split(' ') {
        numbers.push(word.parse::<u64>()?)?;
    }
    Ok(numbers)
}

/// The sender that words name, and the datagram after them.
fn datagram(alloc: Global, is_client: bool, words: &str) -> Result<Got, Fail> {
    let (who, digits) = words.split_once(' ').ok_or("a sender and its datagram")?;
    let number = who.parse::<u32>()?;
    let from = if is_client {
        Peer::Client(number)
    } else {
        Peer::Monitor(Rank::new(u8::try_from(number)?).ok_or("a rank")?)
    };
    let bytes = Bytes::new(bytes_of(alloc, digits)?);
    Ok(Got::Datagram { from, bytes })
}

/// A disk whose call with a number fails, and that then keeps an image.
fn failing_disk(alloc: Global, words: &str) -> Result<MemoryDisk, Fail> {
    let (call, image) = words.split_once(' ').ok_or("a call and an image")?;
    let (call, image) = (call.parse::<u64>()?, image.parse::<u8>()?);
    let mut disk = MemoryDisk::new(alloc);
    disk.upset(call.max(1), image.min(3));
    Ok(disk)
}

/// Writes and syncs bytes.
fn fill<D: Disk>(disk: &mut D, bytes: &[u8]) -> Result<(), Fail> {
    disk.write_at(0, bytes)?;
    Ok(disk.sync()?)
}

fn filled_disk(alloc: Global, digits: &str) -> Result<MemoryDisk, Fail> {
    let bytes = bytes_of(alloc, digits)?;
    let mut disk = MemoryDisk::new(alloc);
    let done = fill(&mut disk, &bytes);
    drop(bytes);
    match done {
        Ok(()) => Ok(disk),
        Err(why) => {
            drop(disk);
            Err(why)
        }
    }
}

/// Leaves what a power cut leaves.
fn settle(disks: &mut NodeDisks<MemoryDisk>) -> Result<(), Fail> {
    disks.a.settle()?;
    Ok(disks.b.settle()?)
}

/// Puts a value in the place of another one. The other one is dropped by a call: the prover goes through all parts of a
/// value that is dropped in place.
fn put<T: Drop>(place: &mut T, value: T) {
    drop(mem::replace(place, value));
}

/// Gives the next run what a line names.
fn give(alloc: Global, rig: &mut Rig, what: &str, words: &str) -> Result<(), Fail> {
    match what {
        "input" => {
            rig.input.extend_from_slice(words.as_bytes())?;
            rig.input.push(b'\n')?;
        }
        "bytes" => put(&mut rig.input, bytes_of(alloc, words)?),
        "idle" => rig.got.push(Got::Idle)?,
        "client" => rig.got.push(datagram(alloc, true, words)?)?,
        "monitor" => rig.got.push(datagram(alloc, false, words)?)?,
        "clock" => put(&mut rig.readings, numbers(alloc, words)?),
        "failing-reads" => put(&mut rig.failing_reads, numbers(alloc, words)?),
        "failing-writes" => put(&mut rig.failing_writes, numbers(alloc, words)?),
        "failing-receives" => put(&mut rig.failing_receives, numbers(alloc, words)?),
        "failing-sends" => put(&mut rig.failing_sends, numbers(alloc, words)?),
        "failing-a" => put(&mut rig.disks.a, failing_disk(alloc, words)?),
        "failing-b" => put(&mut rig.disks.b, failing_disk(alloc, words)?),
        "stored-a" => put(&mut rig.disks.a, filled_disk(alloc, words)?),
        "empty-disks" => put(&mut rig.disks, empty_disks(alloc)),
        "power-cut" => settle(&mut rig.disks)?,
        _ => return Err("no such line".into()),
    }
    Ok(())
}

/// The clock that shows these readings, in milliseconds.
fn clock(alloc: Global, readings: &[u64]) -> Result<ListClock, Fail> {
    let mut moments = Vec::new(alloc);
    for reading in readings {
        moments.push(Moment::known((*reading).min(GREATEST)))?;
    }
    Ok(ListClock::new(moments))
}

/// A run that ended.
#[derive(Drop)]
struct RunResult {
    status: Status,
    sink: MemorySink,
    link: MemoryLink,
}

/// Takes the list in a place, and leaves an empty one.
fn taken<T: Drop>(alloc: Global, place: &mut Vec<T>) -> Vec<T> {
    mem::replace(place, Vec::new(alloc))
}

/// Does what the arguments ask for, with all that was given.
fn run_once(alloc: Global, rig: &mut Rig, words: &[String], mut clock: ListClock) -> RunResult {
    let mut source = MemorySource::new(
        taken(alloc, &mut rig.input),
        taken(alloc, &mut rig.failing_reads),
    );
    let mut sink = MemorySink::new(alloc, taken(alloc, &mut rig.failing_writes));
    let mut link = MemoryLink::new(
        alloc,
        taken(alloc, &mut rig.got),
        taken(alloc, &mut rig.failing_receives),
        taken(alloc, &mut rig.failing_sends),
    );
    let disks = mem::replace(&mut rig.disks, empty_disks(alloc));
    let Ended { status, disks } = run(
        alloc,
        words,
        &mut source,
        &mut sink,
        disks,
        &mut link,
        &mut clock,
    );
    put(&mut rig.disks, disks);
    drop(source);
    drop(clock);
    RunResult { status, sink, link }
}

fn write_sent(alloc: Global, text: &mut String, sent: &Outgoing) -> Result<(), Fail> {
    let digits = hex::encode(alloc, sent.bytes.as_slice())?;
    match sent.to {
        Peer::Monitor(rank) => write!(text, "monitor {} {digits}\n", rank.get())?,
        Peer::Client(number) => write!(text, "client {number} {digits}\n")?,
    }
    Ok(())
}

fn write_link(alloc: Global, text: &mut String, link: &MemoryLink) -> Result<(), Fail> {
    for sent in link.sent() {
        write_sent(alloc, text, sent)?;
    }
    if !link.waits().is_empty() {
        text.push_str("waits")?;
        for wait in link.waits() {
            write!(text, " {wait}")?;
        }
        text.push('\n')?;
    }
    Ok(())
}

/// What was written, in hexadecimal digits if it is no text.
fn write_written(alloc: Global, text: &mut String, written: &[u8]) -> Result<(), Fail> {
    match str::from_utf8(written) {
        Ok(written) => text.push_str(written)?,
        Err(_) => {
            let digits = hex::encode(alloc, written)?;
            write!(text, "bytes {digits}\n")?;
        }
    }
    Ok(())
}

fn write_done(alloc: Global, text: &mut String, done: &RunResult) -> Result<(), Fail> {
    write_link(alloc, text, &done.link)?;
    write_written(alloc, text, done.sink.written())?;
    write!(
        text,
        "status {}, \"{}\"\n",
        done.status.number(),
        done.status
    )?;
    Ok(())
}

fn write_run(alloc: Global, text: &mut String, rig: &mut Rig, words: &str) -> Result<(), Fail> {
    let words = words_of(alloc, words)?;
    let clock = clock(alloc, rig.readings.as_slice())?;
    rig.readings.clear();
    let done = run_once(alloc, rig, words.as_slice(), clock);
    drop(words);
    let written = write_done(alloc, text, &done);
    drop(done);
    written
}

fn words_of(alloc: Global, line: &str) -> Result<Vec<String>, Fail> {
    let mut words = Vec::new(alloc);
    for word in line.split(' ') {
        words.push(String::from_str(alloc, word)?)?;
    }
    Ok(words)
}

fn take(alloc: Global, text: &mut String, rig: &mut Rig, line: &str) -> Result<(), Fail> {
    let (what, words) = line.split_once(' ').unwrap_or((line, ""));
    write!(text, "> {line}\n")?;
    if what == "run" {
        write_run(alloc, text, rig, words)
    } else {
        give(alloc, rig, what, words)
    }
}

fn take_all(alloc: Global, text: &mut String, rig: &mut Rig, lines: &str) -> Result<(), Fail> {
    for line in lines.lines() {
        if let Some(line) = line.strip_prefix("> ") {
            take(alloc, text, rig, line)?;
        }
    }
    Ok(())
}

/// The lines of a text that begin with `> `, each with what came of it.
pub fn played(alloc: Global, lines: &str) -> Result<String, Fail> {
    let mut text = String::new(alloc);
    let mut rig = empty_rig(alloc);
    let done = take_all(alloc, &mut text, &mut rig, lines);
    drop(rig);
    done?;
    Ok(text)
}
