//! Why a line adds no ratio.

use thiserror::Error;

/// Why a line adds no ratio.
#[derive(Clone, Copy, Debug, PartialEq, Eq, Error)]
pub enum KpiError {
    /// The line hasn't the form, or has over 2,048 bytes.
    #[error("the line is no ratio")]
    K1,
    /// A ratio of this name was given.
    #[error("a ratio of this name was given")]
    K2,
    /// 64 ratios stand.
    #[error("64 ratios stand")]
    K3,
    /// Out of memory.
    #[error("out of memory")]
    Memory,
}
