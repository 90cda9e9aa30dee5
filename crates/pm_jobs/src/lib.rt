//! Jobs and monitors: what their bodies say, what they ask for, and which stand.
#![tactic(auto)]

mod ask;
mod body;
mod creating;
mod error;
mod fields;
mod job_reading;
mod jobs;
mod limits;
#[cfg(test)]
mod list_tests;
mod load;
#[cfg(test)]
mod load_tests;
mod making;
mod monitor_reading;
mod numbers;
mod plan;
#[cfg(test)]
mod plan_tests;
mod planning;
#[cfg(test)]
mod rule_tests;
mod rules;
mod showing;
#[cfg(test)]
mod showing_tests;
mod shown;
mod standing;
#[cfg(test)]
mod tests;
mod wanted;
mod writing;

pub use ask::Ask;
pub use body::{Directions, JobBody, MonitorBody, State, Threshold};
pub use error::{BodyError, JobError};
pub use job_reading::{read_job, read_state};
pub use jobs::{Jobs, MOST_LOAD, MOST_STANDING};
pub use monitor_reading::read_monitor;
pub use plan::{Outcome, Plan};
pub use pm_history::Side;
pub use standing::{Limit, Standing};
