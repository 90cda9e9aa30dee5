//! The lines of a source, one after another.
ghost use Rattle.std.specs.Prelude.{◌≡◌, ◌+◌, ◌<◌, length, Ok};
ghost use Rattle.pm_outside.specs.Causes.{faults_after};
ghost use Rattle.pm_outside.specs.Feed.{left_to, KnowsEnd, ReadsOn, is_failed};
ghost use Rattle.pm_outside.specs.NextLine.{GivesNextLine, EndsLine};

use crate::{Feed, FeedError, Line, Source};

/// What the lines of a source go on with.
#[derive(Clone, Copy, Debug, PartialEq, Eq)]
pub enum NextLine {
    /// A line of at most 2,048 bytes, which a line feed ends.
    Line,
    /// The last line, of at most 2,048 bytes, which no line feed ends.
    Last,
    /// A line of over 2,048 bytes.
    Long,
    /// No line.
    None,
}

/// Takes the next line of a source. The feed lends it by `bytes`.
pub fn next_line<S: Source>(feed: &mut Feed, source: &mut S) -> Result<NextLine, FeedError>
    requires { S.IsTold → KnowsEnd feed.old (S.left source.old) }
    ensures next { S.IsTold → GivesNextLine feed.old (left_to feed.old (S.left source.old)) result feed.new (left_to feed.new (S.left source.new)) }
    ensures reads { ReadsOn S.IsTold feed.old feed.new (S.left source.old) (S.left source.new) }
    ensures takes { result ≡ Ok NextLine.Line → feed.old.given < feed.new.given }
    ensures counted { S.faults source.new ≡ faults_after (is_failed result) (S.faults source.old) }
{
    let given = feed.given();
    match feed.line(source)? {
        Line::Whole { length } => Ok(ended(given, feed.given(), length)),
        Line::Long => Ok(NextLine::Long),
        Line::End => Ok(NextLine::None),
    }
}

// Whether a line feed was taken with a line of this length.
fn ended(before: u64, after: u64, length: u32) -> NextLine
    requires { before < after }
    ensures { EndsLine before after length result }
{
    if after - before > u64::from(length) {
        NextLine::Line
    } else {
        NextLine::Last
    }
}
