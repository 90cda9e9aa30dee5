//! What the bytes of an item say.
ghost use Rattle.pm_ledger.specs.Refusals.{IsReading};

use crate::OpenError;
use pm_journal::Item;
use pm_store::{Item1, StoreError, decode};
use std::alloc::Global;

/// The item that the bytes are.
pub fn read_item(alloc: Global, item: &Item) -> Result<Option<Item1>, OpenError>
    ensures { IsReading item.now.offset item.now.bytes result }
{
    match decode(alloc, item.bytes.as_bytes()) {
        Ok(stored) => Ok(Some(stored)),
        Err(StoreError::Bad) => Err(OpenError::Garbled {
            offset: item.offset,
        }),
        Err(StoreError::Memory) => Err(OpenError::Memory),
    }
}
