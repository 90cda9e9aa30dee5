//! The definitions of pm_history, computed slowly over a list of entries. For tests alone: no part of the product stands on it.
#![tactic(auto)]

mod book;
mod copy;
mod counted;
mod crossing;
mod file;
mod history;
mod ids;
mod keeping;
#[cfg(test)]
mod keeping_tests;
mod logic;
mod making;
mod notice;
mod open_tick;
mod print;
mod report;
mod sequence;
mod standing;
mod terms;
#[cfg(test)]
mod tests;
mod value;
mod watching;

pub use book::{Book, Meaning};
pub use counted::{is_counted, is_suspect, some_counted};
pub use crossing::{crosses_down, crosses_up, crossing_in};
pub use file::files;
pub use keeping::{Item, items, kept};
pub use making::Making;
pub use notice::{Notice, notices};
pub use open_tick::open_cell;
pub use print::print_notices;
pub use report::{Group, Part, Report, Row};
pub use standing::Standing;
pub use terms::{Measured, Terms, Watched};
pub use value::{counted_values, measured_value};
pub use watching::{Crossed, crossings_at};
