//! Tests that cross the crates: the top call over objects in memory, on rows whose output was worked out by
//! hand, and beside the plain tally. The crate has no code of its own.
#![tactic(auto)]

#[cfg(test)]
mod files;
#[cfg(test)]
mod generated;
#[cfg(test)]
mod notices;
#[cfg(test)]
mod refusals;
#[cfg(test)]
mod requests;
#[cfg(test)]
mod runs;
#[cfg(test)]
mod tally;
