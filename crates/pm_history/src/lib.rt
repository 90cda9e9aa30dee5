//! What happens to a producer, entry by entry, and what follows from it.
#![tactic(auto)]

mod entry;
mod law;
mod metric;

pub use entry::{Entry, Side};
pub use law::{
    crossings_agree, ends_in_range, files_distinct, files_grow, notices_grow, sums_conserved,
    values_in_range,
};
pub use metric::Metric;
