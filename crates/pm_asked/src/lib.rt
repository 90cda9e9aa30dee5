//! What the bodies of jobs and monitors ask for.
#![tactic(auto)]

mod law;

pub use law::{bodies_are_text, bodies_read_back};
