//! The names that a notice or a listing tells.
ghost use Rattle.std.specs.Prelude.{◌≡◌};
ghost use Rattle.pm_collect.specs.Told.{told_by_notice, told_by_listing};
ghost use Rattle.pm_collect.specs.Names.{TellsName, TellsFiles};

use crate::CollectError;
use pm_form::ReadError;
use pm_notice::{FileInfo, Told, ToldFile, read_listing, read_notice};
use std::alloc::Global;

/// The name of the file that a notice tells, if it tells one.
pub fn name_in_notice(alloc: Global, body: &[u8]) -> Result<Option<Vec<u8>>, CollectError>
    ensures { TellsName (told_by_notice body.now) result }
{
    match read_notice(alloc, body) {
        Ok(Told::FileReady(told)) => Ok(Some(name_of(told))),
        Ok(Told::Crossing(_)) => Ok(None),
        Err(ReadError::Refused(_)) => Err(CollectError::C1),
        Err(ReadError::Memory) => Err(CollectError::Memory),
    }
}

fn name_of(told: ToldFile) -> Vec<u8>
    ensures { result.items ≡ told.file.name }
{
    let ToldFile { file, .. } = told;
    let FileInfo { name, .. } = file;
    name.into_vec()
}

/// The files that a listing tells.
pub fn files_in_listing(alloc: Global, body: &[u8]) -> Result<Vec<FileInfo>, CollectError>
    ensures { TellsFiles (told_by_listing body.now) result }
{
    match read_listing(alloc, body) {
        Ok(files) => Ok(files),
        Err(ReadError::Refused(_)) => Err(CollectError::C2),
        Err(ReadError::Memory) => Err(CollectError::Memory),
    }
}
