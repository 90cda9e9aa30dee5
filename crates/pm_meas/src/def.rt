//! The definition of a measurement, and its words.
ghost use Rattle.std.specs.Prelude.{◌≡◌, ◌∷◌, ◌++◌, List, ℕ, IfOk, OnOk};
ghost use Rattle.pm_base.specs.Pieces.{words_of};
ghost use Rattle.pm_meas.specs.Def.{kind_word, reduce_word, IsDef, ReadAs, def_text};

use crate::kind::{Kind, Reduce};
use pm_base::{Class, Text};
use std::alloc::{AllocError, Global};

/// A measurement that the objects of a class have, after the definitions of TS 28.552.
#[derive(Debug, Drop)]
pub struct Def {
    /// The measurement's name, as `RRC.ConnMean`.
    pub name: Text,
    /// The class of the objects that have it.
    pub class: Class,
    /// What its events are.
    pub kind: Kind,
    /// How the values of a granularity period become one.
    pub reduce: Reduce,
}

// Writes a space and a word.
fn append(text: &mut Vec<u8>, word: &[u8]) -> Result<(), AllocError>
    ensures { OnOk result (text.new.items ≡ text.old.items ++ 32 ∷ word.now) }
{
    text.push(b' ')?;
    text.extend_from_slice(word)?;
    Ok(())
}

impl Def {
    /// The line that defines the measurement, behind its word `measure`.
    #[tactic(auto, using(crate::proofs::TextLemmas::text_reads_back, crate::proofs::TextLemmas::text_only))]
    pub fn text(&self, alloc: Global) -> Result<Vec<u8>, AllocError>
        ensures text { IfOk result (λ v. v.items ≡ def_text self.now) }

        // Of a permitted definition it reads back, and no other line reads as it.
        ensures reads_back { IsDef self.now → ReadAs (words_of (def_text self.now)) self.now }
        ensures only { (line : List ℕ) → ReadAs (words_of line) self.now → line ≡ def_text self.now }
    {
        let mut text = Vec::from_slice(alloc, self.name.as_bytes())?;
        append(&mut text, self.class.name().as_bytes())?;
        append(&mut text, self.kind.word().as_bytes())?;
        append(&mut text, self.reduce.word().as_bytes())?;
        if let Kind::Der { n } = self.kind {
            let number = format!(in alloc; "{n}")?;
            append(&mut text, number.as_bytes())?;
        }
        Ok(text)
    }
}

impl Kind {
    /// The word of the kind, without the n of `DER`.
    pub fn word(self) -> &'static str
        ensures { result.now ≡ kind_word self }
    {
        match self {
            Kind::Cc => "CC",
            Kind::Gauge => "GAUGE",
            Kind::Der { n: _ } => "DER",
            Kind::Si => "SI",
        }
    }
}

impl Reduce {
    /// The word of the reduction.
    pub fn word(self) -> &'static str
        ensures { result.now ≡ reduce_word self }
    {
        match self {
            Reduce::Sum => "SUM",
            Reduce::Mean => "MEAN",
            Reduce::Max => "MAX",
            Reduce::Min => "MIN",
        }
    }
}
