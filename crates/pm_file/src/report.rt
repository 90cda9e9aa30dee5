//! A report and what stands in it.
ghost use Rattle.std.specs.Prelude.{◌≡◌, true};
ghost use Rattle.pm_file.specs.Report.{report_content};
ghost use Rattle.pm_file.specs.Permitted.{is_permitted};

use pm_base::Text;

/// The results of one object, in the order of the types of its group. `None` is written as `null`.
#[derive(Drop)]
pub struct Row {
    /// The distinguished name of the object.
    pub object: Text,
    pub results: Vec<Option<u64>>,
    /// Whether some minute of the granularity period is not counted.
    pub suspect: bool,
}

/// What was measured of the objects of one class.
#[derive(Drop)]
pub struct Group {
    pub class: Text,
    /// The names of the measurements.
    pub types: Vec<Text>,
    pub rows: Vec<Row>,
}

/// What was measured in one granularity period, from the moment `begin` to the moment `end`.
#[derive(Drop)]
pub struct Part {
    pub begin: u64,
    pub end: u64,
    /// In byte order of their classes.
    pub groups: Vec<Group>,
}

/// The report of a job over one reporting period, after TS 32.432. Its values are those that a text can say.
#[derive(Drop)]
pub struct Report {
    pub job: Text,
    /// The distinguished name of the ManagedElement.
    pub sender: Text,
    pub begin: u64,
    pub end: u64,
    pub parts: Vec<Part>,
    pub ghost permitted: { is_permitted (report_content job sender begin end parts.items) ≡ true },
}
