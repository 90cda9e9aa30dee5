//! The words of a line.
ghost use Rattle.std.specs.Prelude.{◌<◌, IfSome};

use pm_base::read_number;
use std::alloc::{AllocError, Global};

/// What stands between these bytes; two of them side by side have an empty word between them.
pub(crate) fn split(alloc: Global, by: u8, line: &[u8]) -> Result<Vec<&[u8]>, AllocError> {
    line.split(|b| *b == by).collect(alloc)
}

/// A number that is less than an end.
pub(crate) fn number(word: &[u8], end: u64) -> Option<u64>
    ensures { IfSome result (λ n. n < end) }
{
    match read_number(word, 19) {
        Some(number) if number < end => Some(number),
        _ => None,
    }
}

/// The numbers of a list that are parted by commas, each less than an end; none where a word is something else.
pub(crate) fn numbers(
    alloc: Global,
    word: &[u8],
    end: u64,
) -> Result<Option<Vec<u64>>, AllocError> {
    let mut numbers = Vec::new(alloc);
    for part in word.split(|b| *b == b',') {
        match number(part, end) {
            Some(number) => numbers.push(number)?,
            None => return Ok(None),
        }
    }
    Ok(Some(numbers))
}
