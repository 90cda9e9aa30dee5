//! A report in the numbers of an inventory, in which the rules of jobs speak.

use pm_base::{Class, Text};

/// The results of one object, by its number in the inventory.
#[derive(Drop)]
pub struct NumberedRow {
    pub object: u16,
    pub results: Vec<Option<u64>>,
    pub suspect: bool,
}

/// What was measured of the objects of one class, by the numbers of the metrics.
#[derive(Drop)]
pub struct NumberedGroup {
    pub class: Class,
    pub metrics: Vec<u8>,
    pub rows: Vec<NumberedRow>,
}

/// What was measured in one granularity period, from the tick `begin` to the tick `end`.
#[derive(Drop)]
pub struct NumberedPart {
    pub begin: u64,
    pub end: u64,
    pub groups: Vec<NumberedGroup>,
}

/// The report of a job over one reporting period, in ticks.
#[derive(Drop)]
pub struct NumberedReport {
    pub job: Text,
    pub begin: u64,
    pub end: u64,
    pub parts: Vec<NumberedPart>,
}
