//! The commands of `pmd` over the objects of the outside that are handed in.
#![tactic(auto)]

mod asking;
mod collect_status;
mod law;
mod run_command;
mod run_status;
mod session_end;
mod session_turns;
mod status;
mod status_text;
mod tally_status;
mod top;
mod words;

pub use law::{turns_are_stream, turns_stay};
pub use session_end::SessionEnd;
pub use session_turns::session;
pub use status::Status;
pub use top::pmd;
pub use words::Command;
