//! Which stored items may come next, and what they do to jobs and monitors and to the cells of a tick.
#![tactic(auto)]

mod cells;
mod change;
mod error;
mod found;
mod law;
mod length;
mod moment;

pub use cells::{MOST_VALUES, cells_fit, row_of};
pub use change::{plan_deletion, plan_making, plan_state};
pub use error::ReplayError;
pub use found::find;
pub use law::allowed_as_permitted;
pub use length::stored_length;
pub use moment::{MOST_AHEAD, is_beside, may_book};
