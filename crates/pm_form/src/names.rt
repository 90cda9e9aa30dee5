//! The strings of a document that are names.
ghost use Rattle.std.specs.Prelude.{◌≡◌, ◌≤◌, ℕ, List, true, length};
ghost use Rattle.serde_json.specs.View.{view};
ghost use Rattle.pm_form.specs.Values.{text};
ghost use Rattle.pm_form.specs.Names.{job_id, dn_id, measure_name, class_word};
ghost use Rattle.pm_form.specs.Says.{Says};

use crate::ReadError;
use crate::read::{copied_if, text_in};
use pm_base::{Class, Text};
use serde_json::Value;
use std::alloc::Global;

/// Whether the bytes are an id of a job, a monitor or a subscription.
pub fn is_job_id(bytes: &[u8]) -> bool
    ensures { result ≡ job_id bytes.now }
{
    pm_base::is_job_id(bytes)
}

/// Whether the bytes are an id of a part of a distinguished name.
pub fn is_dn_id(bytes: &[u8]) -> bool
    ensures { result ≡ dn_id bytes.now }
{
    pm_base::is_dn_id(bytes)
}

/// Whether the bytes are the name of a measurement.
pub fn is_measure_name(bytes: &[u8]) -> bool
    ensures { result ≡ measure_name bytes.now }
{
    pm_base::is_measure_name(bytes)
}

/// Whether the bytes are the name of a class.
pub fn is_class_word(bytes: &[u8]) -> bool
    ensures { result ≡ class_word bytes.now }
{
    Class::from_name(bytes).is_some()
}

/// The id of a job, a monitor or a subscription.
pub fn job_id_in(alloc: Global, value: &Value) -> Result<Text, ReadError>
    ensures { Says result (λ (s : List ℕ). s) ((text job_id).reads (view value.now)) }
{
    let bytes = text_in(value)?;
    copied_if(alloc, bytes, is_job_id(bytes))
}

/// The name of a measurement.
pub fn measure_name_in(alloc: Global, value: &Value) -> Result<Text, ReadError>
    ensures { Says result (λ (s : List ℕ). s) ((text measure_name).reads (view value.now)) }
{
    let bytes = text_in(value)?;
    copied_if(alloc, bytes, is_measure_name(bytes))
}

/// The name of a class.
pub fn class_word_in(alloc: Global, value: &Value) -> Result<Text, ReadError>
    ensures { Says result (λ (s : List ℕ). s) ((text class_word).reads (view value.now)) }
{
    let bytes = text_in(value)?;
    copied_if(alloc, bytes, is_class_word(bytes))
}
