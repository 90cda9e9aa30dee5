//! The requests of a collector.
ghost use Rattle.std.specs.Prelude.{◌≡◌, IfOk};
ghost use Rattle.pm_fetch.specs.Asked.{file_request, listing_request};

use std::alloc::{AllocError, Global};

const TAIL: &[u8] = b" HTTP/1.1\r\nHost: localhost\r\nConnection: close\r\n\r\n";

/// The request for the file of this name.
pub fn ask_file(alloc: Global, name: &[u8]) -> Result<Vec<u8>, AllocError>
    ensures { IfOk result (λ text. text.items ≡ file_request name.now) }
{
    let mut text = Vec::from_slice(alloc, b"GET /files/")?;
    text.extend_from_slice(name)?;
    text.extend_from_slice(TAIL)?;
    Ok(text)
}

/// The request for the listing.
pub fn ask_listing(alloc: Global) -> Result<Vec<u8>, AllocError>
    ensures { IfOk result (λ text. text.items ≡ listing_request) }
{
    let mut text = Vec::from_slice(alloc, b"GET /files")?;
    text.extend_from_slice(TAIL)?;
    Ok(text)
}
