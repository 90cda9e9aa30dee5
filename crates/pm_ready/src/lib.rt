//! The report files of jobs: written when they are due, and kept until they expire.
#![tactic(auto)]

mod due;
mod element;
mod file;
mod files;
mod law;
mod listing;
mod measured;
mod numbered;
mod query;
mod range;
mod ready;
mod shape;
#[cfg(test)]
mod tests;
mod whole;
mod written;

pub use due::{due_file, report_file};
pub use element::managed_element;
pub use files::ReadyFiles;
pub use law::{file_names_are_distinct, files_stay};
pub use query::FileQuery;
pub use ready::ReadyFile;
