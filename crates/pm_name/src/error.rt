//! Why a text is no file name.

use thiserror::Error;

/// The refusal of a text: `F1` to `F7` name the first part that fails.
#[derive(Clone, Copy, Debug, PartialEq, Eq, Error)]
pub enum NameError {
    /// The text doesn't begin with a type, `A` or `C`.
    #[error("the file name does not begin with `A` or `C`")]
    F1,
    /// No date from 19700101 to 99991231 and `.` follow.
    #[error("the file name has no date from 19700101 to 99991231 and `.` after its type")]
    F2,
    /// No time from 0000 to 2359, `+0000` and `-` follow.
    #[error("the file name has no begin time from 0000 to 2359 with `+0000-`")]
    F3,
    /// With type `A` eight digits and `.` follow; with `C` no date and `.` do.
    #[error("the file name has an end date where its type has none, or lacks it")]
    F4,
    /// No time and `+0000` follow, or the period breaks the length rule or ends after 9999-12-31 23:59.
    #[error("the file name has no end time with `+0000`, or its period is not permitted")]
    F5,
    /// No `_-` and job id follow.
    #[error("the file name has no `_-` and job id after its times")]
    F6,
    /// No `_` and id of a distinguished name follow, to the end of the text.
    #[error("the file name does not end with `_` and an id of a distinguished name")]
    F7,
    /// Out of memory for the ids.
    #[error("out of memory")]
    Memory,
}
