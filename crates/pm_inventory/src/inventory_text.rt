//! The lines of an inventory's canonical text.
ghost use Rattle.std.specs.Prelude.{◌≡◌, ◌++◌, ◌∷◌, [], map, OnOk};
ghost use Rattle.pm_base.specs.WholeLines.{text_of_lines};
ghost use Rattle.pm_inventory.specs.Inventory.{object_line, measure_line};

use pm_dn::Tree;
use pm_meas::Catalogue;
use std::alloc::{AllocError, Global};

/// Writes the lines of the objects, in tree order.
pub(crate) fn write_objects(text: &mut Vec<u8>, tree: &Tree) -> Result<(), AllocError>
    ensures { OnOk result (text.new.items ≡ text.old.items ++ text_of_lines (map object_line tree.now)) }
{
    for object in 0..tree.len() {
        write_line(text, b"object ", tree.text(object))?;
    }
    Ok(())
}

/// Writes the lines of the measurements, in catalogue order.
pub(crate) fn write_measures(
    alloc: Global,
    text: &mut Vec<u8>,
    catalogue: &Catalogue,
) -> Result<(), AllocError>
    ensures { OnOk result (text.new.items ≡ text.old.items ++ text_of_lines (map measure_line catalogue.now)) }
{
    for metric in 0..catalogue.len() {
        let words = catalogue.def(metric).text(alloc)?;
        write_line(text, b"measure ", &words)?;
    }
    Ok(())
}

// Writes a word, what stands behind it, and a line feed.
fn write_line(text: &mut Vec<u8>, word: &[u8], rest: &[u8]) -> Result<(), AllocError>
    ensures { OnOk result (text.new.items ≡ text.old.items ++ ((word.now ++ rest.now) ++ 10 ∷ [])) }
{
    text.extend_from_slice(word)?;
    text.extend_from_slice(rest)?;
    text.push(b'\n')?;
    Ok(())
}
