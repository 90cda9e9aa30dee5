//! A line of an inventory that defines a measurement, behind its word `measure`.
//!
//!     RRC.ConnEstabAtt.mo-Data NRCellCU CC SUM
//!     VS.SetupTime NRCellDU DER MEAN 3
ghost use Rattle.std.specs.Prelude.{List, MatchResult};
ghost use Rattle.pm_base.specs.Pieces.{words_of};
ghost use Rattle.pm_meas.specs.declared.def.Def.{Def};
ghost use Rattle.pm_meas.specs.Def.{ReadAs};
ghost use Rattle.pm_meas.specs.Catalogue.{Breaks};

use crate::error::MeasError;
use crate::kind::{Kind, Reduce};
use crate::method::method;
use crate::words::split;
use pm_base::{Class, is_measure_name};

/// What such a line says, its name still in the line.
#[derive(Drop)]
pub struct Line<'a> {
    pub name: &'a [u8],
    pub class: Class,
    pub kind: Kind,
    pub reduce: Reduce,
}

/// Reads the line, or answers the first rule that it breaks whatever stands.
pub fn read(line: &[u8]) -> Result<Line<'_>, MeasError>
    ensures { MatchResult result (λ l. ReadAs (words_of line.now) (record { name = l.name.now; class = l.class; kind = l.kind; reduce = l.reduce })) (λ e.
        (defs : List Def) → Breaks defs (words_of line.now) e) }
{
    let Some(words) = split(line) else {
        return Err(MeasError::I1);
    };
    if !is_measure_name(words.name) {
        return Err(MeasError::M1);
    }
    let Some(class) = Class::from_name(words.class) else {
        return Err(MeasError::M1);
    };
    let Some((kind, reduce)) = method(&words) else {
        return Err(MeasError::M2);
    };
    Ok(Line {
        name: words.name,
        class,
        kind,
        reduce,
    })
}
