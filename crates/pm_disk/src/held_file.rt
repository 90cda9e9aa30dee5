//! A file of the working directory that this process alone may change.

use std::fs::{File, Metadata, TryLockError};
use std::os::fd::AsRawFd;
use std::os::unix::fs::{MetadataExt, OpenOptionsExt};
use std::rt::Files;
use std::{fs, io};
use thiserror::Error;

/// Why a file is not used as an area of a disk, or a call on it failed.
#[derive(Debug, Drop, Error)]
pub enum FileFault {
    /// The path is a link, a folder or a device, or the file has a second name.
    #[error("not a regular file with one name")]
    NotRegular,
    /// The file may be written by its group or by others.
    #[error("group or others may write the file")]
    Shared,
    /// Another process has the lock on the file.
    #[error("held by another process")]
    Held,
    /// The file was removed or renamed while its lock was being taken.
    #[error("the path no longer names the file that was locked")]
    Moved,
    /// The area has no file, or an earlier fault closed it.
    #[error("the file is not open")]
    Closed,
    /// The system's own words.
    #[error("{0}")]
    System(#[from] io::Error),
}

// Whether only the owner may write it, under this name alone.
fn check(file: &Metadata) -> Result<(), FileFault> {
    if !file.is_file() || file.nlink() != 1 {
        return Err(FileFault::NotRegular);
    }
    if file.mode() & 0o022 != 0 {
        return Err(FileFault::Shared);
    }
    Ok(())
}

fn lock(file: &File) -> Result<(), FileFault> {
    match file.try_lock() {
        Ok(()) => Ok(()),
        Err(TryLockError::WouldBlock) => Err(FileFault::Held),
        Err(TryLockError::Error(error)) => Err(FileFault::System(error)),
    }
}

// After a sync that failed the system marks its copies of the pages as clean, so a later process would read what the device
// doesn't have. So what may be pending is synced, and the copies are dropped, before anything is read.
fn settle(file: &File) -> io::Result<()> {
    file.sync_all()?;
    let advised = libc::posix_fadvise(file.as_raw_fd(), 0, 0, libc::POSIX_FADV_DONTNEED);
    if advised == 0 {
        Ok(())
    } else {
        Err(io::Error::from_raw_os_error(advised))
    }
}

// A file that was just made is lost at a stop until its directory is synced. A run that was stopped in between may have made
// it, so the directory is synced whether it was there or not.
fn sync_folder<R: Files<File = File>>(rt: &R) -> io::Result<()> {
    File::open(rt, ".")?.sync_all()
}

/// Opens the file, and makes it where it is missing, for its owner alone. It is held until it is dropped.
pub(crate) fn open_held<R: Files<File = File>>(rt: &R, path: &str) -> Result<File, FileFault> {
    // A link is not followed: it would make a file elsewhere.
    if let Ok(named) = fs::symlink_metadata(rt, path) {
        check(&named)?;
    }
    let file = File::options()
        .read(true)
        .write(true)
        .create(true)
        .mode(0o600)
        .open(rt, path)?;
    lock(&file)?;
    let held = file.metadata()?;
    check(&held)?;
    // Otherwise a second process could make, lock and use another file under this path.
    let named = fs::symlink_metadata(rt, path)?;
    if named.dev() != held.dev() || named.ino() != held.ino() {
        return Err(FileFault::Moved);
    }
    settle(&file)?;
    sync_folder(rt)?;
    Ok(file)
}
