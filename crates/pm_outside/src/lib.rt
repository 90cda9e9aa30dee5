//! The objects outside the program, each with a count of its faults, those in memory, and buffered input.
#![tactic(auto)]

mod buffer;
mod clock;
mod copying;
mod courier;
#[cfg(test)]
mod courier_tests;
mod doors;
mod feed;
mod line;
mod lines;
mod link;
mod mem_clock;
mod mem_courier;
mod mem_doors;
mod mem_link;
mod outside;
mod sink;
mod source;
#[cfg(test)]
mod tests;
#[cfg(test)]
mod told_tests;

pub use clock::Clock;
pub use courier::Courier;
pub use doors::Doors;
pub use feed::{Feed, FeedError, MOST_READ};
pub use line::Line;
pub use lines::{NextLine, next_line};
pub use link::{Exchange, Link, LinkError};
pub use mem_clock::MemClock;
pub use mem_courier::{Made, MemCourier};
pub use mem_doors::MemDoors;
pub use mem_link::MemLink;
pub use outside::{Failed, Sink, Source};
pub use sink::MemSink;
pub use source::MemSource;
