//! The producer: requests are answered over a state and a store, as the definitions answer them over the history.
#![tactic(auto)]

mod asking;
mod engine;
mod error;
mod opening;
mod replies;
mod storing;
mod wish;

pub use engine::Engine;
pub use error::OpenError;
pub use pm_ledger::AddError as EngineError;
