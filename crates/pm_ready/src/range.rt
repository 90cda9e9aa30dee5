//! The files that are ready within a span of time.
ghost use Rattle.std.specs.Prelude.{◌≡◌, ◌≤◌, ◌&&◌, map, length};
ghost use Rattle.std.specs.List.{filter};
ghost use Rattle.pm_ready.specs.Files.{File, file_of};
ghost use Rattle.pm_ready.specs.Listing.{is_from, is_to};
ghost use Rattle.pm_ready.specs.Range.{InOrder, StartsAt, EndsAt};

use crate::ReadyFile;

// How many files are ready before the span begins.
fn count_before(files: &[ReadyFile], begin: Option<u64>) -> usize
    ensures within { result ≤ length files.now }
    ensures place { InOrder files.now → StartsAt begin files.now result }
{
    match begin {
        Some(begin) => files.partition_point(|file| file.info.ready < begin),
        None => 0,
    }
}

// How many are ready before the span is over.
fn count_up_to(files: &[ReadyFile], end: Option<u64>) -> usize
    ensures within { result ≤ length files.now }
    ensures place { InOrder files.now → EndsAt end files.now result }
{
    match end {
        Some(end) => files.partition_point(|file| file.info.ready <= end),
        None => files.len(),
    }
}

/// The files that are ready no earlier and no later than asked for, of files in the order in which they are ready.
pub(crate) fn between(files: &[ReadyFile], begin: Option<u64>, end: Option<u64>) -> &[ReadyFile]
    ensures { InOrder files.now → result.now ≡ filter (λ (f : ReadyFile). is_from begin f.info.ready && is_to end f.info.ready) files.now }
{
    let first = count_before(files, begin);
    let last = count_up_to(files, end);
    if first < last {
        &files[first..last]
    } else {
        &files[..0]
    }
}
