//! The limit of a line.

/// The most bytes of a line, its line feed left out. The limit is this project's own.
pub const MOST_LINE: usize = 2_048;
