//! The name of a report file.
ghost use Rattle.std.specs.Prelude.{◌≡◌, ◌≢◌, ◌↔◌, ℕ, List, Err, IsOk, IfOk, MatchResult, length, ◌≤◌};
ghost use Rattle.pm_name.specs.FileName.{FileNameParts, IsFileName, IsNameable, SaysFileName};
ghost use Rattle.pm_name.specs.declared.error.NameError.{NameError as Refusal};

use crate::scan::scan_name;
use crate::write::write_times;
use crate::{FileKind, NameError};
use pm_base::Text;
use std::alloc::{AllocError, Global};
use std::marker::Model;

/// The name of a report file: its type, reporting period, job and ManagedElement (TS 32.432).
///
/// `begin` and `end` are moments at whole minutes, seconds since 1970-01-01 00:00 UTC; `job` is a job id, and `unique` the
/// id of the ManagedElement.
#[derive(Debug, Drop)]
pub struct FileName {
    kind: FileKind,
    begin: u64,
    end: u64,
    job: Text,
    unique: Text,
}

impl Model for FileName {
    ghost use Rattle.pm_name.specs.FileName.{FileNameParts, IsNameable};

    ghost Value = { FileNameParts };

    ghost use Rattle.pm_name.specs.Name.{name_parts};

    ghost view = { λ name. name_parts name.kind name.begin name.end name.job name.unique };

    ghost invariant = { λ name. IsNameable (name_parts name.kind name.begin name.end name.job name.unique) };
}

impl FileName {
    ghost use Rattle.pm_name.specs.Kind.{type_of};
    ghost use Rattle.pm_name.specs.Name.{name_parts};
    ghost use Rattle.pm_name.specs.Reading.{Refuses};

    /// The name of a job's file. The ids are tested by `pm_base::is_job_id` and `pm_base::is_dn_id`, the period by
    /// `FileKind::can_span`.
    pub fn new(kind: FileKind, begin: u64, end: u64, job: Text, unique: Text) -> FileName
        requires { IsNameable (name_parts kind begin end job unique) }
        ensures { result ≡ name_parts kind begin end job unique }
    {
        FileName {
            kind,
            begin,
            end,
            job,
            unique,
        }
    }

    /// Reads a text as a file name. A refusal takes no memory.
    pub fn read(alloc: Global, bytes: &[u8]) -> Result<FileName, NameError>
        ensures name { IfOk result (IsFileName bytes.now) }
        ensures only { IfOk result (λ name. (other : FileNameParts) → IsFileName bytes.now other → other ≡ name) }

        // A text is refused as its first part that fails says, and want of memory comes for no other text than a name.
        ensures refused { (e : Refusal) → e ≢ NameError.Memory → ((result ≡ Err e) ↔ Refuses bytes.now e) }
        ensures memory { result ≡ Err NameError.Memory → SaysFileName bytes.now }
    {
        let scan = scan_name(bytes)?;
        let job = id_text(alloc, scan.job)?;
        let unique = id_text(alloc, scan.unique)?;
        Ok(FileName {
            kind: scan.kind,
            begin: scan.begin,
            end: scan.end,
            job,
            unique,
        })
    }

    /// Whether `read` would take the text, or its refusal, without memory.
    pub fn check(bytes: &[u8]) -> Result<(), NameError>
        ensures name { IsOk result ↔ SaysFileName bytes.now }
        ensures refused { (e : Refusal) → ((result ≡ Err e) ↔ Refuses bytes.now e) }
    {
        match scan_name(bytes) {
            Ok(_) => Ok(()),
            Err(e) => Err(e),
        }
    }

    /// The one text that reads as this name.
    pub fn write(&self, alloc: Global) -> Result<Text, AllocError>
        ensures text { IfOk result (λ text. IsFileName text self.now) }
        ensures only { IfOk result (λ text. (bytes : List ℕ) → IsFileName bytes self.now → bytes ≡ text) }
    {
        let mut text = write_times(alloc, self.kind, self.begin, self.end)?;
        text.extend_from_slice(b"_-")?;
        text.extend_from_slice(self.job.as_bytes())?;
        text.push(b'_')?;
        text.extend_from_slice(self.unique.as_bytes())?;
        Ok(Text::from_vec(text))
    }

    /// The type.
    pub fn kind(&self) -> FileKind
        ensures value { type_of result ≡ self.now.kind }
        ensures nameable { IsNameable self.now }
    {
        self.kind
    }

    /// The first moment of the reporting period.
    pub fn begin(&self) -> u64
        ensures { result ≡ self.now.begin }
    {
        self.begin
    }

    /// The end of the reporting period.
    pub fn end(&self) -> u64
        ensures { result ≡ self.now.end }
    {
        self.end
    }

    /// The job's id.
    pub fn job(&self) -> &[u8]
        ensures { result.now ≡ self.now.job }
    {
        self.job.as_bytes()
    }

    /// The id of the ManagedElement.
    pub fn unique(&self) -> &[u8]
        ensures { result.now ≡ self.now.unique }
    {
        self.unique.as_bytes()
    }
}

/// A copy of an id.
fn id_text(alloc: Global, id: &[u8]) -> Result<Text, NameError>
    requires { length id.now ≤ 64 }
    ensures { MatchResult result (λ text. text ≡ id.now) (λ e. e ≡ NameError.Memory) }
{
    match Text::from_slice(alloc, id) {
        Ok(text) => Ok(text),
        Err(_) => Err(NameError::Memory),
    }
}
