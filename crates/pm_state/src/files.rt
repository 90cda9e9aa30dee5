//! What looks at the report files show.
ghost use Rattle.std.specs.Prelude.{◌≡◌};
ghost use Rattle.pm_history.specs.History.{History};
ghost use Rattle.pm_inventory.specs.Inventory.{InventoryState};
ghost use Rattle.pm_ready.specs.Kept.{FilesStand};
ghost use Rattle.pm_state.specs.FilesGiven.{Shows, IsListGiven, IsFileGiven, file_query};

use crate::replies::{no_memory, ok, refused};
use pm_base::{Blob, Code};
use pm_http::{Query, QueryError, Reply, read_query};
use pm_ready::{FileQuery, ReadyFiles};
use std::alloc::{AllocError, Global};

fn file_query(query: Query) -> FileQuery
    ensures { result ≡ file_query query }
{
    FileQuery {
        performance: query.performance,
        begin: query.begin,
        end: query.end,
    }
}

/// The listing of the files that a query shows.
pub fn list_files(alloc: Global, files: &ReadyFiles, query: &[u8]) -> Reply
    ensures { (inventory : InventoryState) (h : History) → FilesStand inventory h files.now.files → Shows (IsListGiven inventory h query.now) result }
{
    match read_query(alloc, query) {
        Ok(asked) => match files.listing(alloc, &file_query(asked)) {
            Ok(text) => ok(alloc, 200, text),
            Err(AllocError) => no_memory(alloc),
        },
        Err(QueryError::L2) => refused(alloc, Code::L2),
        Err(QueryError::Memory) => no_memory(alloc),
    }
}

/// The file of a name, or that none is listed.
pub fn show_file(alloc: Global, files: &ReadyFiles, name: &[u8]) -> Reply
    ensures { (inventory : InventoryState) (h : History) → FilesStand inventory h files.now.files → Shows (IsFileGiven inventory h name.now) result }
{
    match files.find(alloc, name) {
        Ok(Some(text)) => match Blob::from_slice(alloc, text) {
            Ok(body) => ok(alloc, 200, body),
            Err(AllocError) => no_memory(alloc),
        },
        Ok(None) => refused(alloc, Code::L1),
        Err(AllocError) => no_memory(alloc),
    }
}
