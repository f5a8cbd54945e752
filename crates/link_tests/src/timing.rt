//! What is counted of a disk's calls.

use mon_disk::{Disk, MemoryDisk};
use mon_link::ListClock;
use mon_watch::{DiskTimes, Timed};
use std::alloc::Global;
use std::cell::Cell;
use std::rc::Rc;
use std::test::Fail;

/// What is counted of a write, and of one that fails after it; and whether they do.
fn counted(alloc: Global) -> Result<(bool, bool, DiskTimes), Fail> {
    let times = Rc::new(alloc, Cell::new(DiskTimes::new()))?;
    let mut inner = MemoryDisk::new(alloc);
    inner.upset(2, 0);
    let mut disk = Timed::new(inner, ListClock::new(Vec::new(alloc)), times.clone()?);
    let first = disk.write_at(0, b"ab").is_ok();
    let second = disk.write_at(0, b"cdef").is_ok();
    drop(disk);
    Ok((first, second, times.get()))
}

#[test]
fn a_failed_write_adds_nothing_to_the_length(rt: HostRuntime) -> Result<(), Fail> {
    let (first, second, counted) = counted(rt.alloc())?;
    let counts = (counted.writes, counted.written, counted.length);
    assert!(rt; first && !second && counts == (2, 6, 2));
    Ok(())
}
