//! Subscriptions, the notices that they are posted, and the texts of notices.
#![tactic(auto)]

mod consumer;
mod error;
mod file_name;
mod law;
mod listed;
mod listing;
mod notice;
mod read;
#[cfg(test)]
mod read_tests;
mod rounds;
mod subscription;
mod subscriptions;
#[cfg(test)]
mod tests;
mod told;
mod write;

pub use error::SubError;
pub use law::{file_names_are_told, notices_are_exact, others_stay, rounds_are_over_all};
pub use listing::{listing_text, read_listing};
pub use notice::{Crossed, FileInfo, Notice};
pub use read::read_notice;
pub use subscription::{Outcome, SubAsk, SubPlan, Subscription};
pub use subscriptions::Subscriptions;
pub use told::{Told, ToldCrossing, ToldFile};
pub use write::{crossing_notice, file_notice};
