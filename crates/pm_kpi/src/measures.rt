//! The names of measurements that one `+` each parts.
ghost use Rattle.std.specs.Prelude.{◌≡◌, ◌++◌, ◌∷◌, [], true, false, IfOk, MatchOption, MatchBool};
ghost use Rattle.pm_base.specs.Pieces.{pieces_of};
ghost use Rattle.pm_form.specs.Names.{measure_name};
ghost use Rattle.pm_kpi.specs.Ratio.{are_measures};

use pm_base::{Text, cut_at};
use pm_form::is_measure_name;
use std::alloc::{AllocError, Global};

/// The most measurements on one side of a ratio.
const MOST_MEASURES: usize = 8;

/// The names; none where they aren't 1 to 8 names of measurements.
pub(crate) fn read_measures(alloc: Global, text: &[u8]) -> Result<Option<Vec<Text>>, AllocError>
    ensures { IfOk result (λ read. MatchOption read (are_measures (pieces_of 43 text.now) ≡ false) (λ names. (names.items ≡ pieces_of 43 text.now) × (are_measures (pieces_of 43 text.now) ≡ true))) }
{
    let mut names = Vec::new(alloc);
    let mut rest = text;
    for _place in 0..MOST_MEASURES {
        match cut_at(b'+', rest) {
            Some((name, behind)) => {
                if !add_name(alloc, &mut names, name)? {
                    return Ok(None);
                }
                rest = behind;
            }
            None => {
                if !add_name(alloc, &mut names, rest)? {
                    return Ok(None);
                }
                return Ok(Some(names));
            }
        }
    }
    Ok(None)
}

// Adds the name, and answers whether it is that of a measurement.
fn add_name(alloc: Global, names: &mut Vec<Text>, name: &[u8]) -> Result<bool, AllocError>
    ensures { IfOk result (λ good. (good ≡ measure_name name.now) × MatchBool good (names.new.items ≡ names.old.items ++ name.now ∷ []) (names.new.items ≡ names.old.items)) }
{
    if !is_measure_name(name) || name.len() > Text::MOST {
        return Ok(false);
    }
    let text = Text::from_slice(alloc, name)?;
    names.push(text)?;
    Ok(true)
}
