//! Strings and moments that pass their tests, straight from a text.
ghost use Rattle.std.specs.Prelude.{◌≡◌, ◌∷◌, true, IfSome};
ghost use Rattle.pm_form.specs.Form.{Form};
ghost use Rattle.pm_form.specs.Values.{text, whole};
ghost use Rattle.pm_form.specs.Names.{job_id, class_word};
ghost use Rattle.pm_file.specs.ReportForm.{object_name, element_name, moment, result_form, type_form};
ghost use Rattle.pm_file.specs.Usual.{Leads};

use crate::names::{is_element_name, is_object_name};
use crate::usual_tokens::{next_result, next_text, next_whole};
use json::Reader;
use pm_base::{LAST_MOMENT, Text};
use pm_form::{is_class_word, is_job_id, is_measure_name};
use std::alloc::Global;

// A copy of a text that passed its test.
fn copy_if(alloc: Global, text: &[u8], passes: bool) -> Option<Text>
    ensures { IfSome result (λ copy. (copy ≡ text.now) × (passes ≡ true)) }
{
    if !passes || text.len() > Text::MOST {
        return None;
    }
    match Text::from_slice(alloc, text) {
        Ok(copy) => Some(copy),
        Err(_) => None,
    }
}

/// The name of an object.
pub(crate) fn usual_object(alloc: Global, reader: &mut Reader<'_>) -> Option<Text>
    ensures { IfSome result (λ s. Leads (text object_name) s reader.old reader.new) }
{
    let bytes = next_text(reader)?.as_bytes();
    copy_if(alloc, bytes, is_object_name(bytes))
}

/// The name of the ManagedElement.
pub(crate) fn usual_element(alloc: Global, reader: &mut Reader<'_>) -> Option<Text>
    ensures { IfSome result (λ s. Leads (text element_name) s reader.old reader.new) }
{
    let bytes = next_text(reader)?.as_bytes();
    copy_if(alloc, bytes, is_element_name(bytes))
}

/// The id of a job.
pub(crate) fn usual_job(alloc: Global, reader: &mut Reader<'_>) -> Option<Text>
    ensures { IfSome result (λ s. Leads (text job_id) s reader.old reader.new) }
{
    let bytes = next_text(reader)?.as_bytes();
    copy_if(alloc, bytes, is_job_id(bytes))
}

/// The name of a class.
pub(crate) fn usual_class(alloc: Global, reader: &mut Reader<'_>) -> Option<Text>
    ensures { IfSome result (λ s. Leads (text class_word) s reader.old reader.new) }
{
    let bytes = next_text(reader)?.as_bytes();
    copy_if(alloc, bytes, is_class_word(bytes))
}

/// The name of a measurement.
#[tactic(auto, unfolding(crate::specs::ReportForm::type_form))]
pub(crate) fn usual_type(alloc: Global, reader: &mut Reader<'_>) -> Option<Text>
    ensures { IfSome result (λ s. Leads type_form s reader.old reader.new) }
{
    let bytes = next_text(reader)?.as_bytes();
    copy_if(alloc, bytes, is_measure_name(bytes))
}

/// A whole number, of which it is known that it is below 2 ^ 64.
pub(crate) fn usual_length(reader: &mut Reader<'_>) -> Option<u64>
    ensures { IfSome result (λ n. Leads (whole 18446744073709551615) n reader.old reader.new) }
{
    next_whole(reader)
}

/// A result: a whole number or null.
pub(crate) fn usual_result(reader: &mut Reader<'_>) -> Option<Option<u64>>
    ensures { IfSome result (λ v. Leads result_form v reader.old reader.new) }
{
    next_result(reader)
}

/// A moment.
pub(crate) fn usual_moment(reader: &mut Reader<'_>) -> Option<u64>
    ensures { IfSome result (λ n. Leads moment n reader.old reader.new) }
{
    let moment = next_whole(reader)?;
    if moment <= LAST_MOMENT {
        Some(moment)
    } else {
        None
    }
}
