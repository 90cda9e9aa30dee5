//! What every layer stands on: byte strings, numbers, pieces, lines, moments, names, classes and refusal codes.
#![tactic(auto)]

mod blob;
mod class;
mod code;
mod lines;
mod moment;
mod names;
mod number;
mod pieces;
#[cfg(test)]
mod tests;
mod text;

pub use blob::Blob;
pub use class::{CLASSES, Class};
pub use code::Code;
pub use lines::MOST_LINE;
pub use moment::{LAST_MOMENT, TICK_SECONDS, tick};
pub use names::{ID_BYTES, WORD_BYTES, is_dn_class, is_dn_id, is_job_id, is_measure_name};
pub use number::{read_moment, read_number};
pub use pieces::cut_at;
pub use text::Text;
