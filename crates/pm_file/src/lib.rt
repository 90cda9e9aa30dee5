//! Reports of measurements, and their texts both ways.
#![tactic(auto)]

mod agreement;
mod body;
mod error;
mod file_name;
mod in_texts;
mod law;
mod names;
mod numbers;
mod read;
mod read_groups;
mod report;
mod room;
#[cfg(test)]
mod tests;
mod text;
mod usual;
mod usual_body;
mod usual_groups;
mod usual_names;
mod usual_tokens;
mod write;
mod write_groups;

pub use error::ReportError;
pub use law::report_is_exact;
pub use numbers::{NumberedGroup, NumberedPart, NumberedReport, NumberedRow};
pub use report::{Group, Part, Report, Row};
