//! What rows are added under.
ghost use Rattle.std.specs.Prelude.{◌≡◌, IfOk};

use std::alloc::{AllocError, Global};

/// What rows are added under. Where parts or objects are joined, the moments are 0 and the object is empty.
#[derive(Debug, PartialEq, Eq, PartialOrd, Ord, Drop)]
pub struct Key {
    pub job: Vec<u8>,
    pub begin: u64,
    pub end: u64,
    pub object: Vec<u8>,
    /// The number of the ratio, from 0.
    pub ratio: u8,
}

impl Key {
    ghost use Rattle.pm_kpi.specs.Key.{key_content};

    /// A copy of the key.
    pub fn copy(&self, alloc: Global) -> Result<Key, AllocError>
        ensures { IfOk result (λ key. key_content key ≡ key_content self.now) }
    {
        let job = Vec::from_slice(alloc, &self.job)?;
        let object = Vec::from_slice(alloc, &self.object)?;
        Ok(Key {
            job,
            begin: self.begin,
            end: self.end,
            object,
            ratio: self.ratio,
        })
    }
}
