//! Counters that several threads share: each event is fixed to an epoch by one atomic step, and no call waits. The README has
//! the words, the atomic steps and what is not promised.
#![tactic(auto)]

mod bank;
mod error;
mod keeper;
mod keeper_steps;
mod pass;
mod pass_steps;
mod plays;
mod registering;
mod run;
mod taking;
mod view;
mod visit;

pub use bank::{Bank, MAX_SLOTS, MAX_WORKERS};
pub use error::{BankError, Draining, HireError, Spent};
pub use keeper::{Cut, Keeper, MAX_GRANTED};
pub use pass::Pass;
pub use pm_meas::Tally;
pub use run::Scratch;
pub use view::{Entry, Hit, Taken};
pub use visit::Visit;

#[cfg(test)]
mod tests;
#[cfg(test)]
mod thread_tests;
