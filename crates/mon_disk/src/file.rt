//! A disk that is a file. Contracts see nothing of its contents, only whether a call failed.

ghost use Rattle.std.specs.Prelude.{◌≡◌, None, length, is_some, IsErr, IsTrue, option_map};
ghost use Rattle.mon_types.specs.Faults.{risen};
ghost use Rattle.mon_disk.specs.Images.{unobserved};

use crate::device::DeviceFile;
use crate::disk::Disk;
use crate::faults::raised;
use mon_types::Stop;
use std::alloc::Global;
use std::fs::{File, Files, OpenFile, OpenOptions, metadata};
use std::io;
use std::io::{Error, ErrorKind};
use std::os::unix::fs::{FileExt, MetadataExt, OpenOptionsExt};
use std::path::Path;

/// A file that gets longer ends at a multiple of this many bytes.
const ROOM: u64 = 262_144;

/// An open file and its identity: while it is open, no other file has its inode on its device.
#[derive(Drop)]
struct OpenedFile<F> {
    file: F,
    device: u64,
    inode: u64,
    /// Its length when it was opened, or the end of a later write if that is greater.
    held: u64,
    /// Its length, with the zeros that were added.
    end: u64,
}

impl<F: DeviceFile> OpenedFile<F> {
    /// Writes. If the write ends past the end, and doesn't begin at 0, zeros follow it, which the next sync keeps too.
    /// The writes after that sync find their place in the file: a sync takes less time if it has no new length to keep.
    fn write(&mut self, alloc: Global, at: u64, bytes: &[u8], end: u64) -> io::Result<()> {
        self.file.write_all_at(bytes, at)?;
        self.held = self.held.max(end);
        if end > self.end {
            self.end = end;
            if at > 0 {
                self.add_room(alloc);
            }
        }
        Ok(())
    }

    /// Adds zeros up to the next multiple of `ROOM`, or fewer if the file system or memory is full. It adds none if the
    /// file's first byte isn't 1: the first file of a store that isn't begun yet has to be short.
    fn add_room(&mut self, alloc: Global) {
        let mut first = [0];
        if self.file.read_exact_at(&mut first, 0).is_err() || first != [1] {
            return;
        }
        let room = ROOM - self.end % ROOM;
        if let Ok(zeros) = vec![in alloc; 0; room as usize] {
            let added = self.file.write_at(zeros.as_slice(), self.end).unwrap_or(0);
            self.end = self.end.saturating_add(added as u64);
        }
    }
}

/// A disk that is the file of a name. The first call locks the file. A sync fails if, after the system's sync, the name
/// is gone or names another file. After a failed call each later one fails too: the system may have lost earlier writes
/// and still report success.
///
/// A file whose first byte is 1 may end in zeros after what the disk holds. They aren't counted in `len` until the file
/// is opened again.
#[derive(Drop)]
pub struct FileDisk<R: Files + Copy>
where
    R::File: DeviceFile,
{
    rt: R,
    path: String,
    file: Option<OpenedFile<R::File>>,
    failure: Option<Error>,
    known: u64,
    faults: u64,
}

impl<R: Files + Copy> FileDisk<R>
where
    R::File: DeviceFile,
{
    /// The file of that name, which the first call opens. If it doesn't exist it is created, readable by its owner
    /// alone. If it isn't a regular file, or is locked, the call fails.
    pub fn named(rt: &R, path: String) -> FileDisk<R>
        ensures { result ≡ record { rt = rt.now; path = path; file = None; failure = None; known = 0; faults = 0 } }
    {
        FileDisk {
            rt: *rt,
            path,
            file: None,
            failure: None,
            known: 0,
            faults: 0,
        }
    }

    /// The system's error at the first call that failed.
    pub fn failure(&self) -> Option<&Error>
        ensures { option_map (λ error. error.now) result ≡ self.now.failure }
    {
        self.failure.as_ref()
    }

    /// Opens the file, unless it is open.
    // The contract of a call that lends the file out couldn't state that the other fields stay. So `open` lends
    // nothing, and each caller looks at `self.file` again.
    fn open(&mut self) -> io::Result<()>
        ensures known { self.new.known ≡ self.old.known }
        ensures faults { self.new.faults ≡ self.old.faults }
        ensures given_up { IsTrue (is_some self.old.failure) → IsErr result }
    {
        if self.failure.is_some() {
            return Err(ErrorKind::Other.into());
        }
        if self.file.is_some() {
            return Ok(());
        }
        let file = settled(&self.rt, self.path.as_str())?;
        keep_name(&self.rt, *self.path.allocator(), self.path.as_str())?;
        self.file = Some(file);
        Ok(())
    }

    /// Counts a fault, keeps the system's first error, and closes the file.
    fn fail(&mut self, said: Error) -> Stop
        ensures stop { result ≡ Stop.Failed }
        ensures known { self.new.known ≡ self.old.known }
        ensures faults { self.new.faults ≡ risen self.old.faults }
        ensures given_up { IsTrue (is_some self.new.failure) }
    {
        self.file = None;
        if self.failure.is_none() {
            self.failure = Some(said);
        }
        self.faults = raised(self.faults);
        Stop::Failed
    }

    fn length(&mut self) -> io::Result<u64>
        ensures known { self.new.known ≡ self.old.known }
        ensures faults { self.new.faults ≡ self.old.faults }
        ensures given_up { IsTrue (is_some self.old.failure) → IsErr result }
    {
        self.open()?;
        match &self.file {
            Some(opened) => Ok(opened.file.metadata()?.len().min(opened.held)),
            None => Err(ErrorKind::NotFound.into()),
        }
    }

    fn take(&mut self, at: u64, into: &mut [u8]) -> io::Result<()>
        ensures room { length into.new ≡ length into.old }
        ensures known { self.new.known ≡ self.old.known }
        ensures faults { self.new.faults ≡ self.old.faults }
        ensures given_up { IsTrue (is_some self.old.failure) → IsErr result }
    {
        self.open()?;
        match &self.file {
            Some(opened) => opened.file.read_exact_at(into, at),
            None => Err(ErrorKind::NotFound.into()),
        }
    }

    fn put(&mut self, at: u64, bytes: &[u8], end: u64) -> io::Result<()>
        ensures known { self.new.known ≡ self.old.known }
        ensures faults { self.new.faults ≡ self.old.faults }
        ensures given_up { IsTrue (is_some self.old.failure) → IsErr result }
    {
        self.open()?;
        let alloc = *self.path.allocator();
        match &mut self.file {
            Some(opened) => opened.write(alloc, at, bytes, end),
            None => Err(ErrorKind::NotFound.into()),
        }
    }

    /// Syncs the file, and then looks at its name. So a file that lost its name before the system's sync returned is
    /// noticed before the caller replies or sends anything.
    fn keep(&mut self) -> io::Result<()>
        ensures known { self.new.known ≡ self.old.known }
        ensures faults { self.new.faults ≡ self.old.faults }
        ensures given_up { IsTrue (is_some self.old.failure) → IsErr result }
    {
        self.open()?;
        match &self.file {
            Some(opened) => {
                opened.file.sync_data()?;
                has_name(&self.rt, opened, self.path.as_str())
            }
            None => Err(ErrorKind::NotFound.into()),
        }
    }
}

/// The file of a name, locked for this process, synced, and without the system's cached pages. So a read returns what
/// is on the device: after a failed sync of an earlier process, the cached pages may differ from it.
fn settled<R: Files>(rt: &R, path: &str) -> io::Result<OpenedFile<R::File>>
where
    R::File: DeviceFile,
{
    let mut options = OpenOptions::new();
    options.read(true).write(true).create(true);
    options.mode(0o600);
    let file = options.open(rt, path)?.claim()?;
    let found = file.metadata()?;
    if !found.is_file() {
        return Err(Error::new(ErrorKind::Unsupported, "not a regular file"));
    }
    file.sync_all()?;
    file.forget_pages()?;
    Ok(OpenedFile {
        file,
        device: found.dev(),
        inode: found.ino(),
        held: found.len(),
        end: found.len(),
    })
}

/// Whether the name still names this open file. What is written to a file that was removed or replaced is lost when
/// the file is closed.
fn has_name<R: Files>(rt: &R, opened: &OpenedFile<R::File>, path: &str) -> io::Result<()> {
    let named = metadata(rt, path)?;
    if named.dev() == opened.device && named.ino() == opened.inode {
        return Ok(());
    }
    Err(Error::new(ErrorKind::NotFound, "the file was replaced"))
}

/// Syncs the folder of a file's name, or that of its target if the name is a link, so that the name of a new file
/// survives a crash.
fn keep_name<R: Files>(rt: &R, alloc: Global, path: &str) -> io::Result<()> {
    let path = rt.canonicalize(alloc, path)?;
    let folder = path.parent().unwrap_or(Path::new("/"));
    File::open(rt, folder)?.sync_all()
}

impl<R: Files + Copy> Disk for FileDisk<R>
where
    R::File: DeviceFile,
{
    ghost state = { λ d. record {
      content = unobserved;
      known = d.known;
      observed = None;
      faults = d.faults;
      refusals = 0;
    } };

    ghost as_read = { λ _. tt };

    ghost settled = { λ _. tt };

    fn len(&mut self) -> Result<u64, Stop> {
        match self.length() {
            Ok(length) => {
                self.known = length;
                Ok(length)
            }
            Err(said) => Err(self.fail(said)),
        }
    }

    fn read(&mut self, at: u64, into: &mut [u8]) -> Result<(), Stop> {
        match self.take(at, into) {
            Ok(()) => Ok(()),
            Err(said) => Err(self.fail(said)),
        }
    }

    fn write_at(&mut self, at: u64, bytes: &[u8]) -> Result<(), Stop> {
        let Some(end) = at.checked_add(bytes.len() as u64) else {
            return Err(self.fail(ErrorKind::FileTooLarge.into()));
        };
        match self.put(at, bytes, end) {
            Ok(()) => {
                self.known = self.known.max(end);
                Ok(())
            }
            Err(said) => Err(self.fail(said)),
        }
    }

    fn sync(&mut self) -> Result<(), Stop> {
        match self.keep() {
            Ok(()) => Ok(()),
            Err(said) => Err(self.fail(said)),
        }
    }
}
