//! A whole run of a collector.
ghost use Rattle.std.specs.Prelude.{◌≡◌};
ghost use Rattle.pm_outside.specs.Causes.{faults_after};
ghost use Rattle.pm_fetch.specs.Ends.{end_of};
ghost use Rattle.pm_fetch.specs.Faults.{names_input, names_output, names_disk, names_link};

use crate::FetchEnd;
use crate::fetching::fetch_all;
use crate::notices::read_notices;
use crate::rows::write_rows;
use pm_collect::{CollectError, Collector};
use pm_disk::Disk;
use pm_outside::{Link, Sink, Source};
use std::alloc::Global;

/// Opens the store in the first area of the disk, reads the notices of the input, fetches what they tell from the peer on
/// this port, then the listing and what is missing of it, and writes a line for each held file.
pub fn collect<S: Source, K: Sink, D: Disk, L: Link>(
    alloc: Global,
    port: u16,
    input: &mut S,
    output: &mut K,
    disk: &mut D,
    link: &mut L,
) -> FetchEnd
    // A fault is counted exactly where the end names it.
    ensures input { S.faults input.new ≡ faults_after (names_input result) (S.faults input.old) }
    ensures output { K.faults output.new ≡ faults_after (names_output result) (K.faults output.old) }
    ensures disk { D.faults disk.new ≡ faults_after (names_disk result) (D.faults disk.old) }
    ensures link { L.faults link.new ≡ faults_after (names_link result) (L.faults link.old) }
{
    let mut collector = match Collector::open(alloc, disk) {
        Ok(collector) => collector,
        Err(error) => return unopened(error),
    };
    match read_notices(alloc, input, &mut collector) {
        Ok(()) => {}
        Err(end) => return end,
    }
    match fetch_all(alloc, &mut collector, disk, link, port) {
        Ok(()) => {}
        Err(end) => return end,
    }
    match write_rows(alloc, &collector, output) {
        Ok(()) => FetchEnd::Done,
        Err(end) => end,
    }
}

// The end of a run whose store isn't opened.
fn unopened(error: CollectError) -> FetchEnd
    ensures { result ≡ end_of error }
{
    match error {
        CollectError::StoreFault => FetchEnd::StoreFault,
        CollectError::Foreign => FetchEnd::Foreign,
        CollectError::Garbled { offset } => FetchEnd::Garbled { offset },
        _ => FetchEnd::Memory,
    }
}
