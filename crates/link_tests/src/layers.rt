//! Calls of a link as a text. The first line names the link, which stands on one in memory. Lines that begin with `> from`,
//! `> clock` and `> failing` say what the one in memory gives, what the clock shows and which receives fail. `> next` and
//! `> send` call the link. What a call gave, how often and how long the link below was asked, and what it was to send
//! follow the line of the call.

use answer_times::AnswerTimes;
use hex::{decode, encode};
use mon_bytes::Bytes;
use mon_link::{Got, Link, ListClock, MemoryLink, Outgoing, Peer};
use mon_name::{Awake, Named, life_of};
use mon_types::{GREATEST, Member, Moment, Rank};
use mon_watch::{DiskTimes, LineReceiver, Watch, Watched};
use std::alloc::Global;
use std::cell::Cell;
use std::fmt::Write;
use std::rc::Rc;
use std::test::Fail;

/// A link over one in memory.
trait Layer {
    fn below(&self) -> &MemoryLink;

    /// What else a text states of a link at its end: whether it stood still, or the length of the last line about its
    /// monitor.
    fn noted(&self) -> usize;
}

impl Layer for Named<MemoryLink> {
    fn below(&self) -> &MemoryLink {
        &self.inner
    }

    fn noted(&self) -> usize {
        0
    }
}

impl Layer for Awake<MemoryLink, ListClock> {
    fn below(&self) -> &MemoryLink {
        &self.inner
    }

    fn noted(&self) -> usize {
        self.stood() as usize
    }
}

/// A receiver of lines that keeps the length of the last one.
#[derive(Drop)]
struct Kept {
    last: usize,
}

impl LineReceiver for Kept {
    fn take_line(&mut self, line: &str) {
        self.last = line.len();
    }

    fn rest(&mut self) {}
}

impl Layer for Watched<MemoryLink, ListClock, Kept> {
    fn below(&self) -> &MemoryLink {
        &self.inner
    }

    fn noted(&self) -> usize {
        self.watch.lines.last
    }
}

/// The link of monitor 0 of 3 that watches it.
fn watching(
    alloc: Global,
    below: MemoryLink,
    clock: ListClock,
) -> Result<Watched<MemoryLink, ListClock, Kept>, Fail> {
    let member = Member::new(Rank::known(0), 3).ok_or("a member")?;
    let watch = Watch {
        member,
        a: Rc::new(alloc, Cell::new(DiskTimes::new()))?,
        b: Rc::new(alloc, Cell::new(DiskTimes::new()))?,
        answered: AnswerTimes::new(alloc)?,
        lines: Kept { last: 0 },
        alloc,
    };
    Ok(Watched::new(below, clock, watch))
}

fn peer(kind: &str, number: &str) -> Result<Peer, Fail> {
    let number = number.parse::<u32>()?;
    if kind == "client" {
        return Ok(Peer::Client(number));
    }
    Ok(Peer::Monitor(Rank::new(u8::try_from(number)?).ok_or("a rank")?))
}

/// The peer that words name, and the bytes after it. `-` is no byte.
fn datagram(alloc: Global, words: &str) -> Result<(Peer, Bytes), Fail> {
    let (kind, words) = words.split_once(' ').ok_or("a peer")?;
    let (number, digits) = words.split_once(' ').ok_or("a datagram")?;
    let digits = if digits == "-" { "" } else { digits };
    Ok((peer(kind, number)?, Bytes::new(decode(alloc, digits)?)))
}

/// Puts a datagram on a list, as often as the first word says.
fn put_datagrams(alloc: Global, got: &mut Vec<Got>, words: &str) -> Result<(), Fail> {
    let (count, words) = words.split_once(' ').ok_or("a count")?;
    for _ in 0..count.parse::<usize>()? {
        let (from, bytes) = datagram(alloc, words)?;
        got.push(Got::Datagram { from, bytes })?;
    }
    Ok(())
}

fn put_all_given(alloc: Global, got: &mut Vec<Got>, lines: &str) -> Result<(), Fail> {
    for line in lines.lines() {
        if let Some(words) = line.strip_prefix("> from ") {
            put_datagrams(alloc, got, words)?;
        }
    }
    Ok(())
}

fn given(alloc: Global, lines: &str) -> Result<Vec<Got>, Fail> {
    let mut got = Vec::new(alloc);
    let done = put_all_given(alloc, &mut got, lines);
    match done {
        Ok(()) => Ok(got),
        Err(why) => {
            drop(got);
            Err(why)
        }
    }
}

/// The numbers in the lines that begin with these words.
fn numbers(alloc: Global, lines: &str, words: &str) -> Result<Vec<u64>, Fail> {
    let mut numbers = Vec::new(alloc);
    for line in lines.lines() {
        if let Some(found) = line.strip_prefix(words) {
            for number in found.split(' ') {
                numbers.push(number.parse::<u64>()?)?;
            }
        }
    }
    Ok(numbers)
}

fn clock(alloc: Global, lines: &str) -> Result<ListClock, Fail> {
    let mut moments = Vec::new(alloc);
    for reading in numbers(alloc, lines, "> clock ")? {
        moments.push(Moment::known(reading.min(GREATEST)))?;
    }
    Ok(ListClock::new(moments))
}

/// What a link gives next: a datagram in hexadecimal, or the name of what else.
fn next_of<L: Link>(alloc: Global, link: &mut L) -> Result<String, Fail> {
    let name = match link.next(5) {
        Ok(Got::Datagram { bytes, .. }) => {
            let text = encode(alloc, bytes.as_slice());
            drop(bytes);
            return Ok(text?);
        }
        Ok(Got::Idle) => "idle",
        Ok(Got::Closed) => "closed",
        Err(_) => "failed",
    };
    Ok(name.to_string(alloc)?)
}

fn write_next<L: Layer + Link>(alloc: Global, text: &mut String, link: &mut L) -> Result<(), Fail> {
    let before = link.below().waits().len();
    let name = next_of(alloc, link)?;
    let mut count = 0u64;
    let mut milliseconds = 0u64;
    for wait in link.below().waits().iter().skip(before) {
        count = count.saturating_add(1);
        milliseconds = milliseconds.saturating_add(*wait);
    }
    write!(text, "{name}, {count} receives, {milliseconds} ms\n")?;
    Ok(())
}

fn send<L: Link>(alloc: Global, link: &mut L, words: &str) -> Result<(), Fail> {
    let (to, bytes) = datagram(alloc, words)?;
    let sent = link.send(to, bytes.as_slice());
    drop(bytes);
    Ok(sent?)
}

/// A datagram in hexadecimal. Of an answer these are the nine bytes of its request, before its text.
fn write_sent(alloc: Global, text: &mut String, sent: &Outgoing) -> Result<(), Fail> {
    let (front, rest) = sent
        .bytes
        .as_slice()
        .split_at_checked(9)
        .unwrap_or((sent.bytes.as_slice(), b""));
    let front = encode(alloc, front)?;
    match sent.to {
        Peer::Monitor(rank) => write!(text, "monitor {} [{front}", rank.get())?,
        Peer::Client(number) => write!(text, "client {number} [{front}")?,
    }
    if rest.starts_with(b"{") {
        text.push_str("] ")?;
        text.push_str(str::from_utf8(rest)?)?;
    } else {
        text.push_str(encode(alloc, rest)?.as_str())?;
        text.push(']')?;
    }
    text.push('\n')?;
    Ok(())
}

fn take<L: Layer + Link>(
    alloc: Global,
    text: &mut String,
    link: &mut L,
    line: &str,
) -> Result<(), Fail> {
    let sent = link.below().sent().len();
    text.push_str(line)?;
    text.push('\n')?;
    if line == "> next" {
        write_next(alloc, text, link)?;
    }
    if let Some(words) = line.strip_prefix("> send ") {
        send(alloc, link, words)?;
    }
    for each in link.below().sent().iter().skip(sent) {
        write_sent(alloc, text, each)?;
    }
    Ok(())
}

fn take_all<L: Layer + Link>(
    alloc: Global,
    text: &mut String,
    link: &mut L,
    lines: &str,
) -> Result<(), Fail> {
    for line in lines.lines() {
        if line.starts_with("> ") {
            take(alloc, text, link, line)?;
        }
    }
    if link.noted() > 0 {
        write!(text, "noted {}\n", link.noted())?;
    }
    Ok(())
}

/// The lines of a text that begin with `> `, each with what came of it at this link.
fn through<L: Layer + Link + Drop>(
    alloc: Global,
    mut link: L,
    lines: &str,
) -> Result<String, Fail> {
    let mut text = String::new(alloc);
    let done = take_all(alloc, &mut text, &mut link, lines);
    drop(link);
    done?;
    Ok(text)
}

/// The lines of a text that begin with `> `, each with what came of it.
pub fn played(alloc: Global, lines: &str) -> Result<String, Fail> {
    let clock = clock(alloc, lines)?;
    let failing = numbers(alloc, lines, "> failing ")?;
    let below = MemoryLink::new(alloc, given(alloc, lines)?, failing, Vec::new(alloc));
    match lines.lines().next() {
        Some("> named") => {
            drop(clock);
            let life = life_of([9, 0, 0, 0, 0, 0, 0, 0]);
            through(
                alloc,
                Named::new(below, 0x0807_0605_0403_0201, life, alloc),
                lines,
            )
        }
        Some("> awake") => through(alloc, Awake::new(below, clock, 10), lines),
        _ => through(alloc, watching(alloc, below, clock)?, lines),
    }
}
