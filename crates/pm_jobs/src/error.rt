//! Why bytes are no body.
ghost use Rattle.std.specs.Prelude.{◌≡◌};
ghost use Rattle.pm_jobs.specs.JobCode.{job_code};

use pm_base::Code;
use std::alloc::AllocError;
use thiserror::Error;

/// The rule that bytes break, or too little memory. Memory never hides a rule that is already known to be broken.
#[derive(Clone, Copy, Debug, PartialEq, Eq, Error)]
pub enum BodyError {
    /// The bytes are no JSON text, or its tree is no body; but for J11.
    #[error("the body is not well formed")]
    J1,
    /// Of a monitor's body: its list of thresholds is wrong, and all else is right.
    #[error("the list of thresholds is not well formed, or a hysteresis is over its threshold")]
    J11,
    /// Out of memory.
    #[error("out of memory")]
    Memory,
}

impl From<AllocError> for BodyError {
    ghost use Rattle.pm_jobs.specs.declared.error.BodyError.TheVariants.{Memory};

    ghost from_gives = { λ _ e. e ≡ Memory };

    fn from(_: AllocError) -> Self {
        BodyError::Memory
    }
}

/// Why a request on a job or a monitor is refused, in the order of the rules.
#[derive(Clone, Copy, Debug, PartialEq, Eq, Error)]
pub enum JobError {
    /// The id is none, or the body is none but for its list of thresholds.
    #[error("the id or the body is not well formed")]
    J1,
    /// The id exists and was made with other content.
    #[error("the id exists already, with other content")]
    J2,
    /// The list of thresholds is no such list, or a hysteresis is over its threshold.
    #[error("the list of thresholds is not well formed, or a hysteresis is over its threshold")]
    J11,
    /// A metric is neither the name of one nor a family.
    #[error("a metric is neither a name nor a family of the inventory's")]
    J3,
    /// An object or a root is none of the inventory.
    #[error("an object or a root is not in the inventory")]
    J4,
    /// Some metric has no measured object.
    #[error("a metric has no object of its class")]
    J5,
    /// The granularity period is none of 60, 300, 900, 1,800 and 3,600 seconds.
    #[error("the granularity period is not one of 60, 300, 900, 1800 and 3600 seconds")]
    J6,
    /// The reporting period doesn't divide a day, or is no multiple of the granularity period.
    #[error("the reporting period does not divide a day, or is no multiple of the granularity period")]
    J7,
    /// `MOST_STANDING` jobs exist.
    #[error("32 jobs exist already")]
    J8,
    /// `MOST_STANDING` monitors exist.
    #[error("32 monitors exist already")]
    J12,
    /// The load of all that exist and of this one is over `MOST_LOAD`.
    #[error("the load of all jobs and monitors would be over 4194304")]
    J9,
    /// Nothing exists under the id.
    #[error("no job or monitor of this id exists")]
    J10,
    /// Out of memory.
    #[error("out of memory")]
    Memory,
}

impl From<AllocError> for JobError {
    ghost use Rattle.pm_jobs.specs.declared.error.JobError.TheVariants.{Memory};

    ghost from_gives = { λ _ e. e ≡ Memory };

    fn from(_: AllocError) -> Self {
        JobError::Memory
    }
}

impl JobError {
    /// The code by which the refusal is told.
    pub fn code(&self) -> Code
        ensures { result ≡ job_code self.now }
    {
        match self {
            JobError::J1 => Code::J1,
            JobError::J2 => Code::J2,
            JobError::J3 => Code::J3,
            JobError::J4 => Code::J4,
            JobError::J5 => Code::J5,
            JobError::J6 => Code::J6,
            JobError::J7 => Code::J7,
            JobError::J8 => Code::J8,
            JobError::J9 => Code::J9,
            JobError::J10 => Code::J10,
            JobError::J11 => Code::J11,
            JobError::J12 => Code::J12,
            JobError::Memory => Code::MEM,
        }
    }
}
