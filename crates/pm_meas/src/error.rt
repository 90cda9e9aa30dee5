//! Why a line of an inventory adds no measurement.
ghost use Rattle.std.specs.Prelude.{◌≡◌};
ghost use Rattle.pm_meas.specs.Catalogue.{meas_code};

use pm_base::Code;
use thiserror::Error;

/// Why a line adds no measurement to a catalogue, which it leaves as it was.
#[derive(Clone, Copy, Debug, PartialEq, Eq, Error)]
pub enum MeasError {
    /// The line has not four or five words.
    #[error("the line has not four or five words")]
    I1,
    /// The first word is no name of a measurement, or the second no class.
    #[error("the first word is no name of a measurement, or the second no class")]
    M1,
    /// The kind, the reduction and n do not go together.
    #[error("the kind, the reduction and n do not go together")]
    M2,
    /// A measurement of the name exists.
    #[error("a measurement of this name exists")]
    M3,
    /// `MAX_MEASURES` exist.
    #[error("64 measurements exist")]
    M4,
    /// Out of memory; no rule is broken.
    #[error("out of memory")]
    Memory,
}

impl MeasError {
    /// The code by which the refusal is told.
    pub fn code(&self) -> Code
        ensures { result ≡ meas_code self.now }
    {
        match self {
            MeasError::I1 => Code::I1,
            MeasError::M1 => Code::M1,
            MeasError::M2 => Code::M2,
            MeasError::M3 => Code::M3,
            MeasError::M4 => Code::M4,
            MeasError::Memory => Code::MEM,
        }
    }
}
