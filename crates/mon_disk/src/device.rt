//! System calls on a file other than reads, writes and syncs: its lock, and its cached pages.

use std::fs::{File, TryLockError};
use std::io;
use std::io::{Error, ErrorKind};
use std::os::fd::AsRawFd;
use std::os::unix::fs::FileExt;

/// An open file that can be made this process's alone.
pub trait DeviceFile: FileExt + Sized {
    /// Locks the file for this process. Fails if another process, or another handle of this process, has the lock.
    fn claim(self) -> io::Result<Self>;

    /// Drops the system's copies of the file, so that the next read gives what the device has.
    fn forget_pages(&self) -> io::Result<()>;
}

impl DeviceFile for File {
    /// Also gives the handle a number above those of the standard streams. Otherwise a write to a standard stream that
    /// was closed could go into the file.
    fn claim(self) -> io::Result<File> {
        let file = if self.as_raw_fd() <= 2 {
            self.try_clone()?
        } else {
            self
        };
        match file.try_lock() {
            Ok(()) => Ok(file),
            Err(TryLockError::WouldBlock) => {
                Err(Error::new(ErrorKind::ResourceBusy, "the file is locked"))
            }
            Err(TryLockError::Error(said)) => Err(said),
        }
    }

    fn forget_pages(&self) -> io::Result<()> {
        let advised = libc::posix_fadvise(self.as_raw_fd(), 0, 0, libc::POSIX_FADV_DONTNEED);
        if advised != 0 {
            return Err(Error::from_raw_os_error(advised));
        }
        Ok(())
    }
}
