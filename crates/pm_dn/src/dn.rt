//! A distinguished name.
ghost use Rattle.std.specs.Prelude.{◌≡◌, ◌≢◌, ◌⊎◌, ◌↔◌, ℕ, List, MatchResult, IfErr, IfOk, IsOk, Some, None, Err};
ghost use Rattle.pm_dn.specs.Name.{IsNameOf, Part};
ghost use Rattle.pm_dn.specs.Refusal.{name_refusal};

use crate::error::DnError;
use crate::refusal::name_refusal;
use pm_base::Text;
use std::alloc::{AllocError, Global};
use std::marker::Model;

/// The distinguished name of a managed object, seen by contracts as the list of its parts, each a class and an id, the
/// outermost first. The form is that of TS 32.300; the alphabet and the limits are this project's own.
#[derive(Debug, Drop)]
pub struct Dn {
    text: Text,
}

impl Model for Dn {
    ghost use Rattle.std.specs.Prelude.{◌≡◌, List, None};
    ghost use Rattle.pm_dn.specs.Name.{Part, name_of};
    ghost use Rattle.pm_dn.specs.Refusal.{name_refusal};

    ghost Value = { List Part };

    ghost view = { λ a. name_of a.text };

    ghost invariant = { λ a. name_refusal a.text ≡ None };
}

impl Dn {
    /// The name that these bytes spell: parts `class=id` joined by commas.
    pub fn read(alloc: Global, bytes: &[u8]) -> Result<Dn, DnError>
        ensures read { IfOk result (λ name. IsNameOf bytes.now name) }
        ensures alone { IfOk result (λ name. (other : List Part) → IsNameOf bytes.now other → other ≡ name) }
        ensures refused { IfErr result (λ code. ((code ≡ DnError.Memory) × (name_refusal bytes.now ≡ None)) ⊎ (name_refusal bytes.now ≡ Some code)) }
    {
        Dn::check(bytes)?;
        match Text::from_slice(alloc, bytes) {
            Ok(text) => Ok(Dn { text }),
            Err(AllocError) => Err(DnError::Memory),
        }
    }

    /// What `read` answers with ample memory. It takes none.
    pub fn check(bytes: &[u8]) -> Result<(), DnError>
        ensures first_rule { MatchResult result (λ _. name_refusal bytes.now ≡ None) (λ code. name_refusal bytes.now ≡ Some code) }
        ensures named { IsOk result ↔ ((name : List Part) × IsNameOf bytes.now name) }
        ensures no_memory { result ≢ Err DnError.Memory }
    {
        match name_refusal(bytes) {
            Some(code) => Err(code),
            None => Ok(()),
        }
    }

    /// The one text that reads as this name.
    pub fn write(&self, alloc: Global) -> Result<Text, AllocError>
        ensures reads_back { IfOk result (λ text. IsNameOf text self.now) }
        ensures alone { IfOk result (λ text. (bytes : List ℕ) → IsNameOf bytes self.now → bytes ≡ text) }
    {
        Text::from_slice(alloc, self.text.as_bytes())
    }
}
