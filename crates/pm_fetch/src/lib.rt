//! A run of a collector: it reads notices, fetches the files that it wants from a peer, and tells what it holds.
#![tactic(auto)]

mod asking;
mod collecting;
mod fetch_end;
mod fetching;
mod notices;
mod reply;
mod request;
mod rows;

pub use collecting::collect;
pub use fetch_end::FetchEnd;

#[cfg(test)]
mod tests;
