use mon_link::*;
use mon_types::Stop;
use std::alloc::Allocator;
use std::fmt::Display;
use std::io;
use std::io::{BufRead, ErrorKind, Lines, Read};

/// A system whose input has no end, or whose every reading fails.
#[derive(Clone, Copy)]
struct Given {
    fails: bool,
}

impl Read for Given {
    fn read(&mut self, into: &mut [u8]) -> io::Result<usize> {
        if self.fails {
            return Err(ErrorKind::Other.into());
        }
        into.fill(120);
        Ok(into.len())
    }
}

impl BufRead for Given {
    fn fill_buf(&mut self) -> io::Result<&[u8]> {
        Err(ErrorKind::Other.into())
    }

    fn consume(&mut self, _amount: usize) {}
}

impl Input for Given {
    type Reader = Given;

    fn read_line<A: Allocator + Clone>(&self, _line: &mut String<A>) -> io::Result<usize> {
        Err(ErrorKind::Other.into())
    }

    fn lines<A: Allocator>(&self, alloc: A) -> Lines<Given, A> {
        self.reader().lines(alloc)
    }

    fn reader(&self) -> Given {
        *self
    }
}

/// A system whose output takes at most this many bytes at once, and prints nothing else.
#[derive(Clone, Copy)]
struct Narrow {
    width: usize,
}

impl Print for Narrow {
    fn print<D: Display + Drop>(&self, _value: D) -> io::Result<()> {
        Err(ErrorKind::Other.into())
    }

    fn println<D: Display + Drop>(&self, _value: D) -> io::Result<()> {
        Err(ErrorKind::Other.into())
    }

    fn write_all(&self, _bytes: &[u8]) -> io::Result<()> {
        Err(ErrorKind::Other.into())
    }

    fn write_some(&self, bytes: &[u8]) -> io::Result<usize> {
        if self.width == 9 {
            return Err(ErrorKind::Other.into());
        }
        Ok(bytes.len().min(self.width))
    }
}

/// The results of writing three bytes to an output that takes this many at once, and then of writing none.
fn wrote(width: usize) -> (Result<(), Stop>, Result<usize, Stop>) {
    let mut sink = StdoutSink::new(&Narrow { width });
    (write_all(&mut sink, b"abc"), sink.write(b""))
}

#[test]
fn an_output_takes_all_or_fails(rt: HostRuntime) {
    let stopped = Err(Stop::Failed);
    let found = [wrote(1), wrote(0), wrote(9)];
    assert!(rt;
        found
            == [
                (Ok(()), Ok(0)),
                (stopped, Ok(0)),
                (stopped, Err(Stop::Failed))
            ]
    );
}

/// The result of a read, and what its buffer holds then.
fn read(fails: bool) -> (Result<usize, Stop>, [u8; 4]) {
    let mut room = [0; 4];
    let read = StdinSource::new(&Given { fails }).read(&mut room);
    (read, room)
}

#[test]
fn an_input_gives_or_fails(rt: HostRuntime) {
    let found = [read(false), read(true)];
    assert!(rt; found == [(Ok(4), [120; 4]), (Err(Stop::Failed), [0; 4])]);
}
