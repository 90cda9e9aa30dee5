//! The state of a producer: what it keeps of its history, and what a request is given over it. It knows no disk.
#![tactic(auto)]

mod booked;
mod change;
mod closing;
mod files;
mod items;
mod opening;
mod replies;
mod report_files;
mod state;
mod subscribing;

pub use booked::first_item;
pub use change::{Change, plan_change, show};
pub use opening::{MOST_GAP, Prepared};
pub use replies::{no_memory, ok, refused, refused_at, status_of};
pub use state::State;
pub use subscribing::SubChange;
