//! The counts of the calls of a monitor's disks, and the lines that a monitor writes on standard error.

ghost use Rattle.std.specs.Prelude.{◌≡◌, IfOk};

use crate::refused::NoDevices;
use crate::standard_error::StandardError;
use answer_times::AnswerTimes;
use mon_hello::Say;
use mon_link::RunClock;
use mon_types::Member;
use mon_watch::{DiskTimes, Journal, LineReceiver, Shared, Watch};
use std::cell::Cell;
use std::env::Env;
use std::rc::Rc;

/// The environment variable that silences a monitor's lines, and its value.
const LOG: &str = "CEPHMON_LOG";

const OFF: &[u8] = b"off";

/// The lines of a monitor, which several of its parts share.
#[derive(Drop)]
pub struct Lines {
    shared: Shared<StandardError, RunClock<HostRuntime>>,
}

impl LineReceiver for Lines {
    fn take_line(&mut self, line: &str) {
        self.shared.take_line(line);
    }

    fn rest(&mut self) {
        self.shared.rest();
    }
}

impl Say for Lines {
    fn say(&mut self, line: &str) {
        self.shared.take_line(line);
    }
}

/// Whether the environment silences the lines.
fn is_off(rt: &HostRuntime) -> bool {
    let mut bytes = [0; 8];
    match rt.var(LOG, &mut bytes) {
        Ok(count) => &bytes[..count] == OFF,
        Err(_) => false,
    }
}

/// The lines of a monitor that starts now.
pub fn lines_of(rt: &HostRuntime) -> Result<Lines, NoDevices> {
    if is_off(rt) {
        return Ok(Lines {
            shared: Shared::silent(),
        });
    }
    let journal = Journal::new(StandardError { rt: *rt }, RunClock::new(rt), rt.alloc());
    match Shared::new(rt.alloc(), journal) {
        Ok(shared) => Ok(Lines { shared }),
        Err(_) => Err(NoDevices::OutOfMemory),
    }
}

/// Another handle of the same lines.
pub fn share(lines: &Lines) -> Result<Lines, NoDevices> {
    match lines.shared.share() {
        Ok(shared) => Ok(Lines { shared }),
        Err(_) => Err(NoDevices::OutOfMemory),
    }
}

/// The counts of the calls of two disks. The disks and the watch share them.
#[derive(Drop)]
pub struct Times {
    pub a: Rc<Cell<DiskTimes>>,
    pub b: Rc<Cell<DiskTimes>>,
}

fn new_times(rt: &HostRuntime) -> Result<Rc<Cell<DiskTimes>>, NoDevices> {
    match Rc::new(rt.alloc(), Cell::new(DiskTimes::new())) {
        Ok(times) => Ok(times),
        Err(_) => Err(NoDevices::OutOfMemory),
    }
}

fn shared_times(times: &Rc<Cell<DiskTimes>>) -> Result<Rc<Cell<DiskTimes>>, NoDevices> {
    match times.clone() {
        Ok(times) => Ok(times),
        Err(_) => Err(NoDevices::OutOfMemory),
    }
}

impl Times {
    /// Counts of no calls.
    pub fn new(rt: &HostRuntime) -> Result<Times, NoDevices> {
        Ok(Times {
            a: new_times(rt)?,
            b: new_times(rt)?,
        })
    }

    /// Another handle of the same counts.
    pub fn share(&self) -> Result<Times, NoDevices> {
        Ok(Times {
            a: shared_times(&self.a)?,
            b: shared_times(&self.b)?,
        })
    }
}

/// The watch of a monitor, which reads these counts and writes these lines.
pub fn watch(
    rt: &HostRuntime,
    member: Member,
    times: Times,
    lines: Lines,
) -> Result<Watch<Lines>, NoDevices>
    ensures { IfOk result (λ watch. watch.member ≡ member) }
{
    let Ok(answered) = AnswerTimes::new(rt.alloc()) else {
        return Err(NoDevices::OutOfMemory);
    };
    Ok(Watch {
        member,
        a: times.a,
        b: times.b,
        answered,
        lines,
        alloc: rt.alloc(),
    })
}
