//! A disk of two areas of bytes: what its calls do, and what a stop at any moment may leave of it.
#![tactic(auto)]

mod area;
mod call;
mod contents;
mod disk;
mod files;
mod held_file;
mod memory;
mod record;

pub use area::Area;
pub use call::Call;
pub use disk::Disk;
pub use files::{FIRST_FILE, FileDisk};
pub use held_file::FileFault;
pub use memory::MemDisk;

#[cfg(test)]
mod tests;
