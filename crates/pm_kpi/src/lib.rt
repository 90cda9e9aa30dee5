//! Key indicators: ratios of sums over the report files that a collector holds.
#![tactic(auto)]

mod adds;
mod by;
mod error;
mod input;
mod key;
mod kpi_end;
mod lines;
mod measures;
mod ratio;
mod ratio_line;
mod ratios;
mod results;
mod rows;
mod running;
mod share;
mod storing;
mod sums;
mod totals;
mod words;

pub use adds::Adds;
pub use by::By;
pub use error::KpiError;
pub use key::Key;
pub use kpi_end::KpiEnd;
pub use ratio::Ratio;
pub use ratios::{MOST_RATIOS, Ratios};
pub use running::kpi;
pub use sums::Sums;
pub use totals::Totals;

#[cfg(test)]
mod tests;
