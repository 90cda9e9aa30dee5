//! What ends with a minute: cells by tick, counted ticks and the values of granularity periods.
#![tactic(auto)]

mod booking;
mod cells;
mod closer;
mod closer_monitors;
mod crossing;
mod due_report;
mod due_reports;
mod ended;
mod ending;
mod filled;
mod filling;
mod flags;
mod law;
mod limits;
mod made_on;
mod marks;
mod measure;
mod measures;
mod monitor;
mod nulls;
mod open_job;
mod open_jobs;
mod open_monitors;
mod open_monitors_book;
mod open_monitors_cut;
mod open_monitors_enact;
mod open_monitors_follow;
mod open_monitors_law;
mod open_monitors_plan;
mod open_monitors_tick;
mod part;
mod planned;
mod prepared;
mod reading;
mod rearmed;
mod report;
mod row;
mod value;
mod values;
mod watched;
mod watched_of;
mod watches;
mod within;

pub use booking::Booking;
pub use cells::TickCells;
pub use closer::Closer;
pub use crossing::Crossing;
pub use due_report::DueReport;
pub use filled::FilledCell;
pub use flags::watch_period;
pub use law::{
    boot_counts_none, cells_known, cells_stay, closer_stays, due_is_file, gaps_have_no_files,
    marks_stay, monitors_stay, reports_stay, sequences_take_values,
};
pub use limits::{MOST_EVENTS, MOST_TICKS};
pub use marks::{Marks, counts};
pub use measure::Measure;
pub use measures::measures_of;
pub use monitor::OpenMonitor;
pub use open_job::OpenJob;
pub use open_jobs::OpenJobs;
pub use open_monitors::{KeptMonitor, OpenMonitors};
pub use open_monitors_book::MonitorsBooking;
pub use open_monitors_follow::prepare;
pub use open_monitors_law::{
    boots_have_no_crossings, monitors_go_on, monitors_open_stay, monitors_reach, plans_have_places,
};
pub use open_monitors_plan::MonitorPlan;
pub use open_monitors_tick::{EndCrossings, MonitorCrossing};
pub use part::PartValues;
pub use prepared::Prepared;
pub use reading::slots_within;
pub use report::{Due, OpenReport};
pub use row::are_small;
pub use value::period_value;
pub use watched::{WatchedMetric, WatchedObject};
pub use watched_of::watches_of;
pub use watches::{MetricWatches, Watches};
pub use within::are_within;

#[cfg(test)]
mod closer_tests;
#[cfg(test)]
mod monitor_tests;
#[cfg(test)]
mod open_monitors_tests;
#[cfg(test)]
mod tests;
