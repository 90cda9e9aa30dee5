//! The text of a listing.
ghost use Rattle.std.specs.Prelude.{◌≡◌, map, All, IfOk};
ghost use Rattle.pm_notice.specs.NoticeContent.{listed_of, IsFileInfo};
ghost use Rattle.pm_ready.specs.Files.{file_of};
ghost use Rattle.pm_ready.specs.Listing.{listed, listing_of};

use crate::ReadyFile;
use pm_base::{Blob, Text};
use pm_notice::{FileInfo, listing_text};
use std::alloc::{AllocError, Global};

fn info_of(alloc: Global, file: &ReadyFile) -> Result<FileInfo, AllocError>
    ensures listed { IfOk result (λ info. listed_of info ≡ listed (file_of file.now)) }
    ensures info { IfOk result IsFileInfo }
{
    let size = file.text.len() as u64;
    let name = Text::from_slice(alloc, file.info.name.as_bytes())?;
    Ok(FileInfo {
        name,
        size,
        ready: file.info.ready,
    })
}

fn infos_of(alloc: Global, files: &[ReadyFile]) -> Result<Vec<FileInfo>, AllocError>
    ensures listed { IfOk result (λ v. map listed_of v.items ≡ map listed (map file_of files.now)) }
    ensures infos { IfOk result (λ v. All IsFileInfo v.items) }
{
    let mut infos = Vec::with_capacity(alloc, files.len())?;
    for file in files {
        infos.push(info_of(alloc, file)?)?;
    }
    Ok(infos)
}

/// The text of a listing of these files.
pub(crate) fn listing_of(alloc: Global, files: &[ReadyFile]) -> Result<Blob, AllocError>
    ensures { IfOk result (λ text. text ≡ listing_of (map file_of files.now)) }
{
    let infos = infos_of(alloc, files)?;
    listing_text(alloc, &infos)
}
