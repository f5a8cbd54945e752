//! Lines on standard error. Nobody has to read it: the program doesn't wait for a reader longer than a second per line.

use libc::net::{POLLOUT, poll};
use libc::types::pollfd;
use mon_watch::LineReceiver;
use std::fmt::Display;

/// For how many milliseconds a line that a command writes waits for the reader.
const PATIENCE: i32 = 1_000;

/// Whether standard error takes a line, after this many milliseconds at most.
fn takes_within(wait: i32) -> bool {
    let mut streams = [pollfd {
        fd: 2,
        events: POLLOUT,
        revents: 0,
    }];
    let _ = poll(&mut streams, wait);
    streams[0].revents & POLLOUT != 0
}

/// Writes a line. One that can't be written within a second is left out.
pub fn print<T: Display>(rt: &HostRuntime, line: &T) {
    if takes_within(PATIENCE) {
        let _ = eprintln!(rt; "{line}");
    }
}

/// Writes a line about a part of the program. One that can't be written within a second is left out.
pub fn print_of<T: Display>(rt: &HostRuntime, part: &str, said: &T) {
    if takes_within(PATIENCE) {
        let _ = eprintln!(rt; "{part}: {said}");
    }
}

/// The receiver of a monitor's lines. One that can't be written at once is left out.
#[derive(Clone, Copy)]
pub struct StandardError {
    pub rt: HostRuntime,
}

impl LineReceiver for StandardError {
    fn take_line(&mut self, line: &str) {
        if takes_within(0) {
            let _ = eprintln!(self.rt; "{line}");
        }
    }

    fn rest(&mut self) {}
}
