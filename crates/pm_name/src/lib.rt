//! Names of report files, read and written after TS 32.432.
#![tactic(auto)]

mod date;
mod digits;
mod error;
mod kind;
mod name;
mod parts;
mod scan;
#[cfg(test)]
mod tests;
mod write;

pub use error::NameError;
pub use kind::FileKind;
pub use name::FileName;
