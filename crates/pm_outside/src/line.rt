//! The next line of a buffer.
ghost use Rattle.pm_base.specs.Lines.{HasNoLineFeed};
ghost use Rattle.pm_outside.specs.Line.{FindsLine};

use memchr::memchr;
use pm_base::MOST_LINE;

/// What a feed answers on its next line.
#[derive(Clone, Copy, Debug, PartialEq, Eq)]
pub enum Line {
    /// A line of so many bytes, at most 2,048, which the feed lends by `bytes`.
    Whole {
        /// The bytes of the line, its line feed left out.
        length: u32,
    },
    /// More than 2,048 bytes are left, and the first 2,049 have no line feed. They stay.
    Long,
    /// No byte is left.
    End,
}

/// What the bytes of a buffer tell of the next line.
#[derive(Clone, Copy, Debug, PartialEq, Eq)]
pub enum Found {
    /// A line of `length` bytes, which with its line feed, if it has one, takes `taken`.
    Line { length: usize, taken: usize },
    /// A line that is too long.
    Long,
    /// There is no further line.
    End,
    /// Nothing: more bytes are wanted.
    Unknown,
}

/// The next line of these bytes. None follow them where the end is known.
#[inline(always)]
pub fn find_line(held: &[u8], ended: bool) -> Found
    ensures { FindsLine held.now ended result }
{
    match memchr(b'\n', held) {
        Some(at) if at <= MOST_LINE => Found::Line {
            length: at,
            taken: at + 1,
        },
        Some(_) => Found::Long,
        None => find_last_line(held, ended),
    }
}

// The same where no byte is a line feed.
#[cold]
#[inline(never)]
fn find_last_line(held: &[u8], ended: bool) -> Found
    requires { HasNoLineFeed held.now }
    ensures { FindsLine held.now ended result }
{
    if held.len() > MOST_LINE {
        return Found::Long;
    }
    if !ended {
        return Found::Unknown;
    }
    if held.is_empty() {
        return Found::End;
    }
    Found::Line {
        length: held.len(),
        taken: held.len(),
    }
}
