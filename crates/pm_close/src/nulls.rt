//! Parts before what exists now was made, or of a gap.

ghost use Rattle.std.specs.Prelude.{◌≡◌, length, IfOk};
ghost use Rattle.pm_close.specs.Parts.{AreNull};

use crate::part::PartValues;
use std::alloc::{AllocError, Global};

// So many parts of so many nulls each.
pub fn null_parts(alloc: Global, parts: usize, values: usize) -> Result<Vec<PartValues>, AllocError>
    ensures null { IfOk result (λ v. AreNull values v.items) }
    ensures as_many { IfOk result (λ v. length v.items ≡ parts) }
{
    let mut nulls = Vec::with_capacity(alloc, parts)?;
    for _ in 0..parts {
        nulls.push(PartValues::null(alloc, values)?)?;
    }
    Ok(nulls)
}
