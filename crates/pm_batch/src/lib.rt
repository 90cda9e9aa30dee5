//! Batches of events: what their lines say, and what they add to the tick that is open.
#![tactic(auto)]

mod batch;
mod batch_error;
mod law;
mod next_line;
mod open_events;
mod open_tick;
mod phase;

pub use batch::{Batch, MOST_BODY};
pub use batch_error::BatchError;
pub use law::{
    batches_follow, batches_unstored, cells_of_tick, events_stay, first_is_refused,
    numbers_of_tick, tick_stays,
};
pub use open_events::OpenEvents;
pub use open_tick::OpenTick;

#[cfg(test)]
mod tests;
