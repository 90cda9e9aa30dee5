//! The line that defines a ratio.
ghost use Rattle.std.specs.Prelude.{◌≡◌, IfOk};
ghost use Rattle.std.specs.Option.{option_map};
ghost use Rattle.pm_kpi.specs.Ratio.{ratio_in, ratio_of};
ghost use Rattle.pm_kpi.specs.Ratios.{ratio_content};

use crate::Ratio;
use crate::measures::read_measures;
use crate::words::{RatioWords, ratio_words};
use pm_base::{MOST_LINE, Text};
use pm_form::is_job_id;
use std::alloc::{AllocError, Global};

/// Reads a line `ratio NAME NUM DEN`, its line feed left out; none where it hasn't this form.
pub(crate) fn read_ratio(alloc: Global, line: &[u8]) -> Result<Option<Ratio>, AllocError>
    ensures { IfOk result (λ read. option_map ratio_content read ≡ ratio_of line.now) }
{
    if line.len() > MOST_LINE {
        return Ok(None);
    }
    match ratio_words(line) {
        Some(words) => read_words(alloc, &words),
        None => Ok(None),
    }
}

fn read_words(alloc: Global, words: &RatioWords<'_>) -> Result<Option<Ratio>, AllocError>
    ensures { IfOk result (λ read. option_map ratio_content read ≡ ratio_in (record { name = words.now.name.now; above = words.now.above.now; below = words.now.below.now })) }
{
    if !is_job_id(words.name) || words.name.len() > Text::MOST {
        return Ok(None);
    }
    let Some(above) = read_measures(alloc, words.above)? else {
        return Ok(None);
    };
    let Some(below) = read_measures(alloc, words.below)? else {
        return Ok(None);
    };
    let name = Text::from_slice(alloc, words.name)?;
    Ok(Some(Ratio { name, above, below }))
}
