//! The tally of a stream of events: for each minute the value of each slot that had one.
#![tactic(auto)]

mod counting;
mod lines;
mod plain;
mod plain_events;
mod plain_text;
mod slot_count;
mod taking;
mod tally_end;
mod tallying;

pub use plain::{PlainTally, plain_tally};
pub use tally_end::TallyEnd;
pub use tallying::tally;
