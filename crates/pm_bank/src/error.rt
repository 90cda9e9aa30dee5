//! What a bank refuses. The variants' names are the codes of the product's refusals.

use thiserror::Error;

/// Why no bank is made.
#[derive(Clone, Copy, Debug, PartialEq, Eq, Error)]
pub enum BankError {
    /// The slots are none or over 4,096.
    #[error("the slots are none or over 4096")]
    B1,
    /// The workers are none or over 64.
    #[error("the workers are none or over 64")]
    B2,
    /// Out of memory for the words.
    #[error("out of memory")]
    Memory,
}

/// Why no pass is hired.
#[derive(Clone, Copy, Debug, PartialEq, Eq, Error)]
pub enum HireError {
    /// As many passes are out as there are workers.
    #[error("as many passes are out as there are workers")]
    B3,
    /// What is granted and the quota are over 1,073,741,824.
    #[error("what is granted and the quota are over 1073741824")]
    B4,
}

/// Less of a pass's quota is left than was to be counted.
#[derive(Clone, Copy, Debug, PartialEq, Eq, Error)]
#[error("the quota of the pass is spent")]
pub struct Spent;

/// Events that arrived in the ended epoch have not left yet.
#[derive(Clone, Copy, Debug, PartialEq, Eq, Error)]
#[error("{left} of {arrived} events of the ended epoch have left")]
pub struct Draining {
    /// How many events arrived in it.
    pub arrived: u32,
    /// How many of them had left when the call looked.
    pub left: u32,
}
