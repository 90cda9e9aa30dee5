//! The disk of the store, over the file of the working folder. It counts faults and tells no content.
ghost use Rattle.std.specs.Prelude.{◌≡◌};
ghost use Rattle.pm_disk.specs.Files.{file_faults};

use pm_disk::{Area, Disk, FileDisk, FileFault};
use pm_outside::Failed;
use std::fs::File;
use std::rt::Files;

/// The disk over a file that is opened at the first call. So a command that makes no call of it touches no file.
#[derive(Drop)]
pub struct StoreFile<'a, R: Files<File = File>> {
    rt: &'a R,
    disk: Option<FileDisk>,
}

impl<'a, R: Files<File = File>> StoreFile<'a, R> {
    ghost use Rattle.pmd.specs.Store.{faults_of};

    /// The file isn't open yet.
    pub fn new(rt: &'a R) -> StoreFile<'a, R> {
        StoreFile { rt, disk: None }
    }

    /// Why the last call failed.
    pub fn cause(&self) -> Option<&FileFault> {
        self.disk.as_ref()?.cause()
    }

    // The disk for a call, which puts it back.
    fn taken(&mut self) -> FileDisk
        ensures { file_faults result ≡ faults_of self.old.disk }
    {
        match self.disk.take() {
            Some(disk) => disk,
            None => FileDisk::open(self.rt),
        }
    }
}

impl<'a, R: Files<File = File>> Disk for StoreFile<'a, R> {
    ghost use Rattle.pm_disk.specs.Made.{blank};
    ghost use Rattle.pmd.specs.Store.{faults_of};

    ghost IsTold = { ⊥ };

    ghost told = { λ s. blank };

    ghost faults = { λ s. faults_of s.disk };

    ghost reads_image = { λ s area told. absurd told };

    fn len(&mut self, area: Area) -> Result<u64, Failed> {
        let mut disk = self.taken();
        let answer = disk.len(area);
        self.disk = Some(disk);
        answer
    }

    fn read(&mut self, area: Area, at: u64, buf: &mut [u8]) -> Result<(), Failed> {
        let mut disk = self.taken();
        let answer = disk.read(area, at, buf);
        self.disk = Some(disk);
        answer
    }

    fn write_at(&mut self, area: Area, at: u64, bytes: &[u8]) -> Result<(), Failed> {
        let mut disk = self.taken();
        let answer = disk.write_at(area, at, bytes);
        self.disk = Some(disk);
        answer
    }

    fn cut(&mut self, area: Area, to: u64) -> Result<(), Failed> {
        let mut disk = self.taken();
        let answer = disk.cut(area, to);
        self.disk = Some(disk);
        answer
    }

    fn sync(&mut self, area: Area) -> Result<(), Failed> {
        let mut disk = self.taken();
        let answer = disk.sync(area);
        self.disk = Some(disk);
        answer
    }
}
