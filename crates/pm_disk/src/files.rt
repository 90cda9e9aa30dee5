//! The disk over a file of the working directory.
//!
//! What a real file does at a stop is trusted, and said nowhere: this disk tells no content. The clauses on faults hold.
ghost use Rattle.std.specs.Prelude.{◌≡◌};
ghost use Rattle.std.specs.Result.{is_err};
ghost use Rattle.pm_outside.specs.Causes.{faults_after};

use crate::held_file::{FileFault, open_held};
use crate::{Area, Disk};
use pm_outside::Failed;
use std::fs::File;
use std::os::unix::fs::FileExt;
use std::rt::Files;

/// The file of the first area.
pub const FIRST_FILE: &str = "pmd-first.journal";

/// A disk whose first area is the file `pmd-first.journal`. Its second area is no file yet: each call on it fails. Where the
/// file can't be opened or held, or once a sync of it failed, each call on the first area fails too.
#[derive(Drop)]
pub struct FileDisk {
    first: Option<File>,
    // A sync failed.
    lost: bool,
    cause: Option<FileFault>,
    faults: u64,
}

impl FileDisk {
    ghost use Rattle.pm_disk.specs.Files.{file_faults};

    /// Opens the file, and makes it where it is missing, for its owner alone. It is held until the disk is dropped.
    pub fn open<R: Files<File = File>>(rt: &R) -> FileDisk
        ensures { file_faults result ≡ 0 }
    {
        match open_held(rt, FIRST_FILE) {
            Ok(file) => FileDisk {
                first: Some(file),
                lost: false,
                cause: None,
                faults: 0,
            },
            Err(fault) => FileDisk {
                first: None,
                lost: false,
                cause: Some(fault),
                faults: 0,
            },
        }
    }

    /// How often the disk has failed.
    pub fn faults(&self) -> u64
        ensures { result ≡ file_faults self.now }
    {
        self.faults
    }

    /// Why the last call failed, or why the file was closed before it.
    pub fn cause(&self) -> Option<&FileFault> {
        self.cause.as_ref()
    }

    fn file(&self, area: Area) -> Result<&File, FileFault> {
        match (area, &self.first) {
            (Area::First, Some(file)) if !self.lost => Ok(file),
            _ => Err(FileFault::Closed),
        }
    }

    // The value, or a counted fault.
    fn counted<T>(&mut self, done: Result<T, FileFault>) -> Result<T, Failed>
        ensures { file_faults self.new ≡ faults_after (is_err result) (file_faults self.old) }
    {
        match done {
            Ok(value) => Ok(value),
            Err(fault) => {
                self.note(fault);
                self.faults = self.faults.saturating_add(1);
                Err(Failed)
            }
        }
    }

    // What closed the file, or a sync that failed, stays the cause.
    fn note(&mut self, fault: FileFault)
        ensures { file_faults self.new ≡ file_faults self.old }
    {
        if self.cause.is_none() || (self.first.is_some() && !self.lost) {
            self.cause = Some(fault);
        }
    }
}

impl Disk for FileDisk {
    ghost use Rattle.pm_disk.specs.Made.{blank};

    ghost IsTold = { ⊥ };

    ghost told = { λ disk. blank };

    ghost faults = { λ disk. disk.faults };

    ghost reads_image = { λ disk area told. absurd told };

    fn len(&mut self, area: Area) -> Result<u64, Failed> {
        let length = self.file(area).and_then(length_of);
        self.counted(length)
    }

    fn read(&mut self, area: Area, at: u64, buf: &mut [u8]) -> Result<(), Failed> {
        let done = match self.file(area) {
            Ok(file) => file.read_exact_at(buf, at).map_err(FileFault::System),
            Err(fault) => Err(fault),
        };
        self.counted(done)
    }

    fn write_at(&mut self, area: Area, at: u64, bytes: &[u8]) -> Result<(), Failed> {
        let done = match self.file(area) {
            Ok(file) => file.write_all_at(bytes, at).map_err(FileFault::System),
            Err(fault) => Err(fault),
        };
        self.counted(done)
    }

    fn cut(&mut self, area: Area, to: u64) -> Result<(), Failed> {
        let done = match self.file(area) {
            Ok(file) => file.set_len(to).map_err(FileFault::System),
            Err(fault) => Err(fault),
        };
        self.counted(done)
    }

    // After a sync that failed nobody knows what the device has, and a second one would answer Ok. So no call follows it.
    fn sync(&mut self, area: Area) -> Result<(), Failed> {
        let done = match self.file(area) {
            Ok(file) => file.sync_all().map_err(FileFault::System),
            Err(fault) => Err(fault),
        };
        let failed = done.is_err();
        let answer = self.counted(done);
        if failed && area == Area::First {
            self.lost = true;
        }
        answer
    }
}

fn length_of(file: &File) -> Result<u64, FileFault> {
    Ok(file.metadata()?.len())
}
