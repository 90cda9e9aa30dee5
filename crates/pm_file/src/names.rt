//! The distinguished names in a report.
ghost use Rattle.std.specs.Prelude.{◌≡◌, ◌≤◌, ℕ, List, length, true};
ghost use Rattle.serde_json.specs.View.{view};
ghost use Rattle.pm_form.specs.Values.{text};
ghost use Rattle.pm_form.specs.Says.{Says};
ghost use Rattle.pm_file.specs.ReportForm.{object_name, element_name, element_id};

use pm_base::Text;
use pm_dn::Dn;
use pm_form::{ReadError, copied_if, is_dn_id, text_in};
use serde_json::Value;
use std::alloc::Global;

/// How many bytes come before the id in the name of a ManagedElement.
const BEFORE_ID: usize = 15;

/// Whether the bytes are a distinguished name.
pub(crate) fn is_object_name(bytes: &[u8]) -> bool
    ensures { result ≡ object_name bytes.now }
{
    Dn::check(bytes).is_ok()
}

/// Whether the bytes are the name of a ManagedElement.
#[tactic(auto, using(crate::proofs::ElementLemmas::short_name))]
pub(crate) fn is_element_name(bytes: &[u8]) -> bool
    ensures { result ≡ element_name bytes.now }
{
    if bytes.len() < BEFORE_ID {
        return false;
    }
    let (class, id) = bytes.split_at(BEFORE_ID);
    class == b"ManagedElement=".as_slice() && is_dn_id(id)
}

/// The id in the name of a ManagedElement.
pub(crate) fn element_id(sender: &[u8]) -> &[u8]
    requires { 15 ≤ length sender.now }
    ensures id { result.now ≡ element_id sender.now }
    ensures short { length result.now ≤ length sender.now }
{
    &sender[BEFORE_ID..]
}

/// The name of an object.
pub(crate) fn object_name_in(alloc: Global, value: &Value) -> Result<Text, ReadError>
    ensures { Says result (λ (s : List ℕ). s) ((text object_name).reads (view value.now)) }
{
    let bytes = text_in(value)?;
    copied_if(alloc, bytes, is_object_name(bytes))
}

/// The name of the ManagedElement.
pub(crate) fn element_name_in(alloc: Global, value: &Value) -> Result<Text, ReadError>
    ensures { Says result (λ (s : List ℕ). s) ((text element_name).reads (view value.now)) }
{
    let bytes = text_in(value)?;
    copied_if(alloc, bytes, is_element_name(bytes))
}
