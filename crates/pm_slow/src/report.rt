//! Reports, in the numbers of the inventory and in ticks.
ghost use Rattle.std.specs.Prelude.{◌≡◌};

use pm_base::{Class, Text};
use std::marker::Model;

/// The results of one object, in the order of the metrics of its group. None stands for null.
#[derive(Drop)]
pub struct Row {
    pub object: u16,
    pub results: Vec<Option<u64>>,
    pub suspect: bool,
}

impl Model for Row {
    ghost use Rattle.pm_history.specs.Files.{Row};

    ghost Value = { Row };

    ghost view = { λ r. record { object = r.object; results = r.results.items; suspect = r.suspect } };
}

/// What was measured of one class.
#[derive(Drop)]
pub struct Group {
    pub class: Class,
    pub metrics: Vec<u8>,
    pub rows: Vec<Row>,
}

impl Model for Group {
    ghost use Rattle.pm_history.specs.Files.{Group};

    ghost Value = { Group };

    ghost view = { λ g. record { class = g.class; metrics = g.metrics.items; rows = g.rows.items } };
}

/// What was measured in one granularity period.
#[derive(Drop)]
pub struct Part {
    pub begin: u64,
    pub end: u64,
    pub groups: Vec<Group>,
}

impl Model for Part {
    ghost use Rattle.pm_history.specs.Files.{Part};

    ghost Value = { Part };

    ghost view = { λ p. record { begin = p.begin; end = p.end; groups = p.groups.items } };
}

/// The report of a job over one reporting period.
#[derive(Drop)]
pub struct Report {
    pub job: Text,
    pub begin: u64,
    pub end: u64,
    pub parts: Vec<Part>,
}

impl Model for Report {
    ghost use Rattle.pm_history.specs.Files.{Report};

    ghost Value = { Report };

    ghost view = { λ r. record { job = r.job; begin = r.begin; end = r.end; parts = r.parts.items } };
}
