//! One line of an inventory before its `end`.
ghost use Rattle.std.specs.Prelude.{◌≡◌, ◌≢◌, ◌++◌, ◌∷◌, ℕ, List, [], None, OnOk, OnErr, IfErr, MatchOption};
ghost use Rattle.pm_dn.specs.Tree.{add_refusal};
ghost use Rattle.pm_meas.specs.Catalogue.{Adds};
ghost use Rattle.pm_inventory.specs.InventoryLine.{AddsLine, RefusesName, RefusesWords, RefusesLine};

use pm_base::Code;
use pm_dn::{Tree, TreeError};
use pm_meas::{Catalogue, MeasError};
use thiserror::Error;

/// Why a line adds nothing.
#[derive(Clone, Copy, Debug, PartialEq, Eq, Error)]
pub enum LineError {
    /// The first rule broken.
    #[error("the line is refused: {}", .0.name())]
    Refused(Code),
    /// Out of memory; no rule is broken.
    #[error("out of memory")]
    Memory,
}

/// Adds the object of a line `object LDN`, or the measurement of a line `measure NAME CLASS KIND REDUCE`, where `DER` takes n
/// after its reduction. The line feed is left out.
pub fn take_line(tree: &mut Tree, catalogue: &mut Catalogue, line: &[u8]) -> Result<(), LineError>
    ensures added { OnOk result (AddsLine (record { objects = tree.old; measures = catalogue.old }) line.now (record { objects = tree.new; measures = catalogue.new })) }
    ensures stays { OnErr result ((tree.new ≡ tree.old) × (catalogue.new ≡ catalogue.old)) }
    ensures refused { IfErr result (RefusesLine (record { objects = tree.old; measures = catalogue.old }) line.now) }
{
    if let Some(name) = behind(b"object ", line) {
        return add_object(tree, name);
    }
    if let Some(words) = behind(b"measure ", line) {
        return add_measure(catalogue, words);
    }
    Err(LineError::Refused(Code::I1))
}

// What stands behind the word at the start of the line.
fn behind<'a>(word: &[u8], line: &'a [u8]) -> Option<&'a [u8]>
    ensures { MatchOption result ((rest : List ℕ) → line.now ≢ word.now ++ rest) (λ rest. line.now ≡ word.now ++ rest.now) }
{
    line.strip_prefix(word)
}

fn add_object(tree: &mut Tree, name: &[u8]) -> Result<(), LineError>
    ensures let_in { OnOk result (add_refusal tree.old name.now ≡ None) }
    ensures added { OnOk result (tree.new ≡ tree.old ++ name.now ∷ []) }
    ensures stays { OnErr result (tree.new ≡ tree.old) }
    ensures refused { IfErr result (RefusesName tree.old name.now) }
{
    match tree.add(name) {
        Ok(_) => Ok(()),
        Err(TreeError::Memory) => Err(LineError::Memory),
        Err(error) => Err(LineError::Refused(error.code())),
    }
}

fn add_measure(catalogue: &mut Catalogue, words: &[u8]) -> Result<(), LineError>
    ensures added { OnOk result (Adds catalogue.old words.now catalogue.new) }
    ensures stays { OnErr result (catalogue.new ≡ catalogue.old) }
    ensures refused { IfErr result (RefusesWords catalogue.old words.now) }
{
    match catalogue.add(words) {
        Ok(_) => Ok(()),
        Err(MeasError::Memory) => Err(LineError::Memory),
        Err(error) => Err(LineError::Refused(error.code())),
    }
}
