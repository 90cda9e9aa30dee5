//! The lines of keys.
ghost use Rattle.std.specs.Prelude.{◌≡◌, ◌++◌, OnOk};
ghost use Rattle.pm_kpi.specs.Key.{key_content};
ghost use Rattle.pm_kpi.specs.Ratios.{ratios_of};
ghost use Rattle.pm_kpi.specs.Output.{moment_word, object_word, name_word, value_word, flag_word, key_line};
ghost use Rattle.pm_kpi.specs.Lines.{entry_line};

use crate::{By, Key, Ratios, Totals};
use itoa::Buffer;
use std::alloc::AllocError;

/// Adds the line of a key, if it stands.
pub(crate) fn add_entry(
    text: &mut Vec<u8>,
    ratios: &Ratios,
    by: By,
    key: &Key,
    totals: &Totals,
) -> Result<(), AllocError>
    ensures { OnOk result (text.new.items ≡ text.old.items ++ entry_line by (ratios_of ratios.now) (key.now, totals.now)) }
{
    if totals.stands {
        add_line(text, ratios, by, key, totals)
    } else {
        Ok(())
    }
}

fn add_line(
    text: &mut Vec<u8>,
    ratios: &Ratios,
    by: By,
    key: &Key,
    totals: &Totals,
) -> Result<(), AllocError>
    ensures { OnOk result (text.new.items ≡ text.old.items ++ key_line by (ratios_of ratios.now) (key_content key.now) totals.now) }
{
    text.extend_from_slice(&key.job)?;
    text.push(b' ')?;
    add_moment(text, by, key.begin)?;
    text.push(b' ')?;
    add_moment(text, by, key.end)?;
    text.push(b' ')?;
    add_object(text, by, &key.object)?;
    text.push(b' ')?;
    add_name(text, ratios, key.ratio)?;
    text.push(b' ')?;
    add_value(text, totals)?;
    text.push(b' ')?;
    add_flag(text, totals)?;
    text.push(b'\n')?;
    Ok(())
}

fn add_moment(text: &mut Vec<u8>, by: By, moment: u64) -> Result<(), AllocError>
    ensures { OnOk result (text.new.items ≡ text.old.items ++ moment_word by moment) }
{
    match by {
        By::Period => {
            let mut digits = Buffer::new();
            text.extend_from_slice(digits.format(moment).as_bytes())
        }
        By::Object => text.extend_from_slice(b"-"),
        By::All => text.extend_from_slice(b"-"),
    }
}

fn add_object(text: &mut Vec<u8>, by: By, object: &[u8]) -> Result<(), AllocError>
    ensures { OnOk result (text.new.items ≡ text.old.items ++ object_word by object.now) }
{
    match by {
        By::Period => text.extend_from_slice(object),
        By::Object => text.extend_from_slice(object),
        By::All => text.extend_from_slice(b"-"),
    }
}

// Adds the name of the ratio of this number.
fn add_name(text: &mut Vec<u8>, ratios: &Ratios, number: u8) -> Result<(), AllocError>
    ensures { OnOk result (text.new.items ≡ text.old.items ++ name_word (ratios_of ratios.now) number) }
{
    match ratios.list().get(number as usize) {
        Some(ratio) => text.extend_from_slice(ratio.name.as_bytes()),
        None => Ok(()),
    }
}

// A sum that is too large to be multiplied is that of more rows than memory has room for.
fn add_value(text: &mut Vec<u8>, totals: &Totals) -> Result<(), AllocError>
    ensures { OnOk result (text.new.items ≡ text.old.items ++ value_word totals.now) }
{
    if totals.below == 0 {
        return text.extend_from_slice(b"null");
    }
    let Some(above) = totals.above.checked_mul(1_000_000) else {
        return Err(AllocError);
    };
    let mut digits = Buffer::new();
    text.extend_from_slice(digits.format(above / totals.below).as_bytes())
}

fn add_flag(text: &mut Vec<u8>, totals: &Totals) -> Result<(), AllocError>
    ensures { OnOk result (text.new.items ≡ text.old.items ++ flag_word totals.now) }
{
    if totals.suspect {
        text.extend_from_slice(b"suspect")
    } else {
        text.extend_from_slice(b"ok")
    }
}
