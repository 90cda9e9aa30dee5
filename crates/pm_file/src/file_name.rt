//! The name of a report's file.
ghost use Rattle.std.specs.Prelude.{◌≡◌, ℕ, List, IfOk};
ghost use Rattle.pm_name.specs.FileName.{IsFileName};
ghost use Rattle.pm_file.specs.Name.{report_name};
ghost use Rattle.pm_file.specs.Says.{content_of};

use crate::names::element_id;
use crate::report::Report;
use pm_base::Text;
use pm_name::{FileKind, FileName};
use std::alloc::{AllocError, Global};

impl Report {
    /// The file name of its times, its job and the id of its sender.
    pub fn name(&self, alloc: Global) -> Result<Text, AllocError>
        ensures text { IfOk result (λ text. IsFileName text (report_name (content_of self.now))) }
        ensures only { IfOk result (λ text. (bytes : List ℕ) → IsFileName bytes (report_name (content_of self.now)) → bytes ≡ text) }
    {
        let kind = FileKind::of_period(self.parts.len() == 1);
        let job = Text::from_slice(alloc, self.job.as_bytes())?;
        let unique = Text::from_slice(alloc, element_id(self.sender.as_bytes()))?;
        FileName::new(kind, self.begin, self.end, job, unique).write(alloc)
    }
}
