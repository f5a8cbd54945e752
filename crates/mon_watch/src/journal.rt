//! Lines in one form, at most twenty in ten seconds.

use crate::lines::LineReceiver;
use crate::ration::Ration;
use mon_link::Clock;
use std::alloc::{AllocError, Global};
use std::cell::RefCell;
use std::fmt::Write;
use std::rc::Rc;

/// Writes lines in one form: the milliseconds since the start, ` ms: `, and the line.
#[derive(Drop)]
pub struct Journal<W: LineReceiver + Drop, C: Clock + Drop> {
    out: W,
    clock: C,
    ration: Ration,
    alloc: Global,
}

fn dated(alloc: Global, now: u64, line: &str) -> Result<String, AllocError> {
    let mut text = String::new(alloc);
    write!(text, "{now} ms: {line}")?;
    Ok(text)
}

fn left_out_line(alloc: Global, count: u64) -> Result<String, AllocError> {
    let mut text = String::new(alloc);
    write!(text, "{count} lines were left out")?;
    Ok(text)
}

impl<W: LineReceiver + Drop, C: Clock + Drop> Journal<W, C> {
    /// A journal without a line.
    pub fn new(out: W, clock: C, alloc: Global) -> Journal<W, C> {
        Journal {
            out,
            clock,
            ration: Ration::from_now(0),
            alloc,
        }
    }

    /// Writes a line. If there is no memory for it, it is left out.
    fn writes(&mut self, now: u64, line: &str) {
        if let Ok(text) = dated(self.alloc, now, line) {
            self.out.take_line(text.as_str());
        }
    }

    /// Begins the next interval if this one is over, and then writes how many lines were left out, if any.
    fn renews(&mut self, now: u64) {
        let left_out = self.ration.renews(now);
        if left_out > 0
            && let Ok(line) = left_out_line(self.alloc, left_out)
        {
            self.writes(now, line.as_str());
        }
    }

    fn takes(&mut self, line: &str) {
        let now = self.clock.now().get();
        self.renews(now);
        if self.ration.admit() {
            self.writes(now, line);
        }
    }

    fn rests(&mut self) {
        let now = self.clock.now().get();
        self.renews(now);
    }
}

/// A handle to a journal that several share, or to none, which drops all lines.
#[derive(Drop)]
pub struct Shared<W: LineReceiver + Drop, C: Clock + Drop> {
    journal: Option<Rc<RefCell<Journal<W, C>>>>,
}

impl<W: LineReceiver + Drop, C: Clock + Drop> Shared<W, C> {
    /// A handle to this journal.
    pub fn new(alloc: Global, journal: Journal<W, C>) -> Result<Shared<W, C>, AllocError> {
        Ok(Shared {
            journal: Some(Rc::new(alloc, RefCell::new(journal))?),
        })
    }

    /// A handle to no journal.
    pub fn silent() -> Shared<W, C> {
        Shared { journal: None }
    }

    /// Another handle to the same journal.
    pub fn share(&self) -> Result<Shared<W, C>, AllocError> {
        match &self.journal {
            Some(journal) => Ok(Shared {
                journal: Some(journal.clone()?),
            }),
            None => Ok(Shared::silent()),
        }
    }
}

impl<W: LineReceiver + Drop, C: Clock + Drop> LineReceiver for Shared<W, C> {
    fn take_line(&mut self, line: &str) {
        if let Some(journal) = &self.journal
            && let Ok(mut journal) = journal.try_borrow_mut()
        {
            journal.takes(line);
        }
    }

    fn rest(&mut self) {
        if let Some(journal) = &self.journal
            && let Ok(mut journal) = journal.try_borrow_mut()
        {
            journal.rests();
        }
    }
}
