//! An item of a journal.

use pm_base::Blob;

/// An item, with the offset of its gate in the area, in bytes.
#[derive(Debug, Drop)]
pub struct Item {
    pub offset: u64,
    pub bytes: Blob,
}
