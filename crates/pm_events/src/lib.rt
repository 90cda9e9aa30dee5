//! Events, the lines that carry them, and the table that finds their slots.
#![tactic(auto)]

mod batch_line;
mod event;
mod event_line;
mod event_reading;
mod hit;
mod hit_reading;
mod last_word;
mod law;
mod named_slot;
mod names_hash;
mod reader;
mod same_names;
mod slot_places;
mod slot_table;

pub use event::{Event, MOST_REGISTERED};
pub use event_line::{EventLine, read_event_line};
pub use event_reading::read_event;
pub use hit::Hit;
pub use hit_reading::read_hit;
pub use law::batch_lines_are_event_lines;
pub use reader::Reader;
pub use slot_table::SlotTable;

#[cfg(test)]
mod tests;
