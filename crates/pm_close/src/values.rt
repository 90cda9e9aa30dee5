//! The values of a list of measures.

ghost use Rattle.std.specs.Prelude.{◌≡◌, ◌≤◌, ◌<◌, length, IfOk};
ghost use Rattle.pm_close.specs.Rows.{AreSmall};
ghost use Rattle.pm_close.specs.Values.{IsCovered};
ghost use Rattle.pm_close.specs.Parts.{AreValues, AreWithin};

use crate::cells::TickCells;
use crate::marks::Marks;
use crate::measure::Measure;
use crate::value::period_value;
use pm_meas::Cell;
use std::alloc::{AllocError, Global};

// The values of these measures over a granularity period that ends.
pub fn values_of(
    alloc: Global,
    kept: &TickCells,
    row: &[Cell],
    measures: &[Measure],
    period: &Marks,
) -> Result<Vec<Option<u64>>, AllocError>
    requires slots { AreWithin kept.now.slots measures.now }
    requires wide { length row.now ≡ kept.now.slots }
    requires small { AreSmall row.now }
    requires covered { IsCovered kept.now period.now }
    ensures each { IfOk result (λ v. AreValues kept.now row.now measures.now period.now v.items) }
    ensures as_many { IfOk result (λ v. length v.items ≡ length measures.now) }
{
    let mut values = Vec::with_capacity(alloc, measures.len())?;
    for k in 0..measures.len() {
        let Measure { slot, reduce } = measures[k];
        values.push(period_value(kept, row, slot as usize, period, reduce))?;
    }
    Ok(values)
}
