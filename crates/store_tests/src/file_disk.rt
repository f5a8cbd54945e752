use crate::contents::contents;
use mon_disk::*;
use mon_types::Stop;
use std::alloc::{Allocator, Global};
use std::cell::Cell;
use std::fs::{Files, Metadata, OpenFile, OpenOptions};
use std::io::{ErrorKind, Read, Seek, SeekFrom, Write};
use std::os::unix::fs::FileExt;
use std::path::PathBuf;
use std::rc::Rc;
use std::test::Fail;
use std::{fs, io};

fn named(rt: &HostRuntime, name: &str) -> Result<FileDisk<HostRuntime>, Fail> {
    Ok(FileDisk::named(rt, String::from_str(rt.alloc(), name)?))
}

/// Makes three writes and a sync.
fn fill(disk: &mut FileDisk<HostRuntime>) -> Result<(), Stop> {
    disk.write_at(0, b"abc")?;
    disk.write_at(3, b"def")?;
    disk.write_at(1, b"XY")?;
    disk.sync()
}

/// A disk on a new file, after three writes and a sync.
fn made(rt: &HostRuntime, name: &str) -> Result<FileDisk<HostRuntime>, Fail> {
    let _old = fs::remove_file(rt, name);
    let mut disk = named(rt, name)?;
    match fill(&mut disk) {
        Ok(()) => Ok(disk),
        Err(why) => {
            drop(disk);
            Err(why.into())
        }
    }
}

/// The file's bytes, as a new disk on it reads them.
fn read_again(rt: &HostRuntime, name: &str) -> Result<Vec<u8>, Fail> {
    let mut disk = named(rt, name)?;
    let bytes = contents(rt.alloc(), &mut disk);
    drop(disk);
    bytes
}

/// Whether a second disk on a locked file fails, and still fails after the first disk released the lock.
fn is_locked(rt: &HostRuntime, name: &str) -> Result<bool, Fail> {
    let mut second = named(rt, name)?;
    let first = made(rt, name)?;
    let locked = second.sync() == Err(Stop::Failed);
    drop(first);
    let given_up = second.sync() == Err(Stop::Failed);
    drop(second);
    Ok(locked && given_up)
}

#[test]
fn a_file_is_made_and_opened_again(rt: HostRuntime) -> Result<(), Fail> {
    let name = "mon_disk_test_file";
    assert!(rt; is_locked(&rt, name)?);
    assert!(rt; read_again(&rt, name)?.as_slice() == b"aXYdef".as_slice());
    fs::remove_file(&rt, name)?;
    Ok(())
}

/// Why the length of a file of that name can't be read, or `None` if it can.
fn failure(rt: &HostRuntime, name: &str) -> Result<Option<ErrorKind>, Fail> {
    let mut disk = named(rt, name)?;
    let failed = disk.len() == Err(Stop::Failed);
    let kind = disk.failure().map(|error| error.kind());
    drop(disk);
    Ok(if failed { kind } else { None })
}

#[test]
fn what_is_no_file_fails(rt: HostRuntime) -> Result<(), Fail> {
    for (name, kind) in [
        ("mon_disk_no_folder/file", ErrorKind::NotFound),
        ("/dev/null", ErrorKind::Unsupported),
        (".", ErrorKind::IsADirectory),
    ] {
        assert!(rt; failure(&rt, name)? == Some(kind), "{name}");
    }
    Ok(())
}

/// The calls so far, one letter per call; the number of the call that fails, counted from 1, or 0 if none fails; and
/// the file's bytes.
#[derive(Clone, Copy)]
struct Asked {
    calls: [u8; 32],
    count: usize,
    failing: usize,
    bytes: [u8; 8],
    len: usize,
}

fn ask(cell: &Cell<Asked>, letter: u8) -> io::Result<Asked> {
    let mut asked = cell.get();
    if asked.count < 32 {
        asked.calls[asked.count] = letter;
        asked.count += 1;
    }
    cell.set(asked);
    if asked.count == asked.failing {
        return Err(ErrorKind::StorageFull.into());
    }
    Ok(asked)
}

/// A system with one file, which a link names. Each read and each write moves at most one byte.
#[derive(Drop)]
struct Fake {
    asked: Rc<Cell<Asked>>,
}

/// The file of a `Fake`, or its folder.
#[derive(Drop)]
struct FakeFile {
    asked: Rc<Cell<Asked>>,
    folder: bool,
}

/// A `FileDisk` reads and writes at explicit offsets only, so these calls fail.
impl Read for FakeFile {
    fn read(&mut self, _buf: &mut [u8]) -> io::Result<usize> {
        Err(ErrorKind::Unsupported.into())
    }
}

impl Write for FakeFile {
    fn write(&mut self, _buf: &[u8]) -> io::Result<usize> {
        Err(ErrorKind::Unsupported.into())
    }

    fn flush(&mut self) -> io::Result<()> {
        Err(ErrorKind::Unsupported.into())
    }
}

impl Seek for FakeFile {
    fn seek(&mut self, _to: SeekFrom) -> io::Result<u64> {
        Err(ErrorKind::Unsupported.into())
    }
}

impl FileExt for FakeFile {
    fn read_at(&self, buf: &mut [u8], offset: u64) -> io::Result<usize> {
        let asked = ask(&self.asked, b'r')?;
        let at = offset as usize;
        if buf.is_empty() || at >= asked.len.min(8) {
            return Ok(0);
        }
        buf[0] = asked.bytes[at];
        Ok(1)
    }

    fn write_at(&self, buf: &[u8], offset: u64) -> io::Result<usize> {
        let mut asked = ask(&self.asked, b'w')?;
        let at = offset as usize;
        if buf.is_empty() || at >= 8 {
            return Ok(0);
        }
        asked.bytes[at] = buf[0];
        asked.len = asked.len.max(at + 1);
        self.asked.set(asked);
        Ok(1)
    }
}

impl DeviceFile for FakeFile {
    fn claim(self) -> io::Result<FakeFile> {
        ask(&self.asked, b'c')?;
        Ok(self)
    }

    fn forget_pages(&self) -> io::Result<()> {
        ask(&self.asked, b'f')?;
        Ok(())
    }
}

impl OpenFile for FakeFile {
    fn metadata(&self) -> io::Result<Metadata> {
        let asked = ask(&self.asked, b'm')?;
        Ok(Metadata::of_file(asked.len as u64))
    }

    fn set_len(&self, _size: u64) -> io::Result<()> {
        Err(ErrorKind::Unsupported.into())
    }

    fn sync_all(&self) -> io::Result<()> {
        ask(&self.asked, if self.folder { b'S' } else { b's' })?;
        Ok(())
    }

    fn sync_data(&self) -> io::Result<()> {
        ask(&self.asked, b'd')?;
        Ok(())
    }
}

impl Files for Fake {
    type File = FakeFile;

    type Dir = FakeFile;

    fn open_file(&self, how: &OpenOptions, path: &str) -> io::Result<FakeFile> {
        let folder = path == "folder";
        ask(&self.asked, if folder { b'O' } else { b'o' })?;
        if !folder && (path != "link" || !how.asks_create() || how.asks_truncate()) {
            return Err(ErrorKind::NotFound.into());
        }
        Ok(FakeFile {
            asked: self.asked.clone()?,
            folder,
        })
    }

    fn canonicalize<B: Allocator>(&self, alloc: B, _path: &str) -> io::Result<PathBuf<B>> {
        ask(&self.asked, b'p')?;
        Ok(PathBuf::from_str(alloc, "folder/file")?)
    }

    fn open_dir(&self, _path: &str) -> io::Result<FakeFile> {
        Err(ErrorKind::Unsupported.into())
    }

    fn metadata(&self, _path: &str) -> io::Result<Metadata> {
        let asked = ask(&self.asked, b'n')?;
        Ok(Metadata::of_file(asked.len as u64))
    }

    fn symlink_metadata(&self, _path: &str) -> io::Result<Metadata> {
        Err(ErrorKind::Unsupported.into())
    }

    fn copy(&self, _from: &str, _to: &str) -> io::Result<u64> {
        Err(ErrorKind::Unsupported.into())
    }

    fn rename(&self, _from: &str, _to: &str) -> io::Result<()> {
        Err(ErrorKind::Unsupported.into())
    }

    fn remove_file(&self, _path: &str) -> io::Result<()> {
        Err(ErrorKind::Unsupported.into())
    }

    fn create_dir(&self, _path: &str) -> io::Result<()> {
        Err(ErrorKind::Unsupported.into())
    }

    fn remove_dir(&self, _path: &str) -> io::Result<()> {
        Err(ErrorKind::Unsupported.into())
    }

    fn remove_dir_all<B: Allocator>(&self, _alloc: B, _path: &str) -> io::Result<()> {
        Err(ErrorKind::Unsupported.into())
    }
}

/// The outcome of a length, a write, a sync, a length and a read of a file.
#[derive(Clone, Copy)]
struct Went {
    asked: Asked,
    done: bool,
    /// Whether a further sync failed without a call of the system.
    given_up: bool,
}

/// Makes these five calls. Returns whether each of them succeeds with the right result.
fn done<D: Disk>(disk: &mut D) -> bool {
    if disk.len() != Ok(0) || disk.write_at(0, b"ab").is_err() || disk.sync().is_err() {
        return false;
    }
    let mut bytes = [0u8; 2];
    disk.len() == Ok(2) && disk.read(0, &mut bytes).is_ok() && bytes == *b"ab"
}

fn run_on(alloc: Global, fake: &Fake) -> Result<Went, Fail> {
    let name = String::from_str(alloc, "link")?;
    let mut disk = FileDisk::named(&fake, name);
    let done = done(&mut disk);
    let asked = fake.asked.get();
    let stopped = disk.sync() == Err(Stop::Failed);
    drop(disk);
    Ok(Went {
        asked,
        done,
        given_up: stopped && fake.asked.get().count == asked.count,
    })
}

/// The outcome of these calls on a system whose call number `failing` fails; 0: none fails.
fn run_on_file(alloc: Global, failing: usize) -> Result<Went, Fail> {
    let nothing = Asked {
        calls: [0; 32],
        count: 0,
        failing,
        bytes: [0; 8],
        len: 0,
    };
    let fake = Fake {
        asked: Rc::new(alloc, Cell::new(nothing))?,
    };
    let went = run_on(alloc, &fake);
    drop(fake);
    went
}

#[test]
fn a_file_is_synced_and_so_is_its_folder(rt: HostRuntime) -> Result<(), Fail> {
    let Went {
        asked,
        done,
        given_up,
    } = run_on_file(rt.alloc(), 0)?;
    assert!(rt; done && !given_up);
    assert!(rt; asked.calls.starts_with(b"ocmsfpOSmwwdnmrr") && asked.count == 16);
    Ok(())
}

#[test]
fn after_each_call_that_fails_the_file_is_given_up(rt: HostRuntime) -> Result<(), Fail> {
    for failing in 1usize..=16 {
        let went = run_on_file(rt.alloc(), failing)?;
        assert!(rt; !went.done && went.given_up, "call {failing}");
    }
    Ok(())
}
