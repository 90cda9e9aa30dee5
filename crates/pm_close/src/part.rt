//! What is kept of a granularity period that ended, until its report is due.

ghost use Rattle.std.specs.Prelude.{◌≡◌, ℕ, List, length, IfOk};
ghost use Rattle.pm_inventory.specs.Inventory.{SlotKey};
ghost use Rattle.pm_history.specs.declared.entry.Side.{Side};
ghost use Rattle.pm_history.specs.History.{History};
ghost use Rattle.pm_history.specs.Terms.{Terms};
ghost use Rattle.pm_history.specs.Standing.{Making};

use crate::cells::TickCells;
use crate::marks::Marks;
use crate::measure::Measure;
use crate::values::values_of;
use pm_meas::Cell;
use std::alloc::{AllocError, Global};

/// The values of a granularity period, `None` for null, and whether they are suspect. All of one period are, or none.
#[derive(Drop)]
pub struct PartValues {
    pub values: Vec<Option<u64>>,
    pub suspect: bool,
}

impl PartValues {
    ghost use Rattle.pm_close.specs.Rows.{AreSmall};
    ghost use Rattle.pm_close.specs.Marks.{PeriodStands};
    ghost use Rattle.pm_close.specs.Values.{IsCovered, KnowsCells};
    ghost use Rattle.pm_close.specs.Parts.{AreWithin, IsNull, IsPart, ReadEach, Quantity};

    /// The values of these measures over a granularity period that ends. `row` are the cells of the tick that was open.
    pub fn of(
        alloc: Global,
        kept: &TickCells,
        row: &[Cell],
        measures: &[Measure],
        period: &Marks,
    ) -> Result<PartValues, AllocError>
        requires slots { AreWithin kept.now.slots measures.now }
        requires wide { length row.now ≡ kept.now.slots }
        requires small { AreSmall row.now }
        requires covered { IsCovered kept.now period.now }
        ensures { IfOk result (λ part. (terms : Side → List ℕ → Terms) (slots : List SlotKey) (h : History) (w : Making) (quantities : List Quantity) (granularity end : ℕ)
            → KnowsCells slots h kept.now row.now → ReadEach slots measures.now quantities → PeriodStands terms h w granularity end period.now
            → IsPart terms h w quantities period.now.begin granularity part) }
    {
        let values = values_of(alloc, kept, row, measures, period)?;
        let suspect = period.is_suspect();
        Ok(PartValues { values, suspect })
    }

    /// So many nulls, which are suspect: of a period in which no tick is counted.
    pub fn null(alloc: Global, values: usize) -> Result<PartValues, AllocError>
        ensures { IfOk result (IsNull values) }
    {
        Ok(PartValues {
            values: vec![in alloc; None; values]?,
            suspect: true,
        })
    }
}
