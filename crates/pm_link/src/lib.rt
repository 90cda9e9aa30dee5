//! The real link: it makes exchanges over TCP with a peer on this host.
#![tactic(auto)]

mod link;
#[cfg(test)]
mod tests;

pub use link::TcpLink;
