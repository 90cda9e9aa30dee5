//! The real courier: it posts over TCP to a consumer on this host.
#![tactic(auto)]

mod answer;
mod courier;
#[cfg(test)]
mod tests;

pub use courier::HttpCourier;
