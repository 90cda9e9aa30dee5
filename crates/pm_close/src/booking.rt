//! What an entry that ends ticks comes to.

ghost use Rattle.std.specs.Prelude.{◌≡◌};
ghost use Rattle.pm_close.specs.Rows.{AreSmall};

use crate::due_report::DueReport;
use crate::filled::FilledCell;
use crate::open_monitors_plan::MonitorPlan;
use crate::open_monitors_tick::EndCrossings;
use crate::report::OpenReport;
use pm_meas::Cell;

/// What a request in a later tick or a start of the program comes to: what is due, what is stored, and what is kept once it
/// is enacted.
#[derive(Drop)]
pub struct Booking {
    // Whether it is a start of the program.
    pub(crate) boot: bool,
    // The tick up to which ticks end.
    pub(crate) tick: u64,
    // The cells of the tick that was open.
    pub(crate) row: Vec<Cell>,
    pub(crate) plans: Vec<OpenReport>,
    pub(crate) reports: Vec<DueReport>,
    pub(crate) cells: Vec<FilledCell>,
    pub(crate) monitors: Vec<MonitorPlan>,
    pub(crate) crossings: Vec<EndCrossings>,
    ghost small: { AreSmall row.items },
}

impl Booking {
    /// The reports that are due and have a file, by end, then in byte order of id.
    pub fn reports(&self) -> &[DueReport]
        ensures { result.now ≡ self.now.reports.items }
    {
        &self.reports
    }

    /// The crossings at each end from the tick after the open one on; none of a start of the program.
    pub fn crossings(&self) -> &[EndCrossings]
        ensures { result.now ≡ self.now.crossings.items }
    {
        &self.crossings
    }

    /// The cells with values that it was made with, by slot: none of a start of the program.
    pub fn cells(&self) -> &[FilledCell]
        ensures { result.now ≡ self.now.cells.items }
    {
        &self.cells
    }
}
