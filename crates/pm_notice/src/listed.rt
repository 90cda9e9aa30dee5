//! What a document says of a file that is ready.
ghost use Rattle.std.specs.Prelude.{◌≡◌};
ghost use Rattle.serde_json.specs.View.{view};
ghost use Rattle.pm_form.specs.Says.{Says};
ghost use Rattle.pm_form.specs.Values.{text};
ghost use Rattle.pm_notice.specs.Single.{single};
ghost use Rattle.pm_notice.specs.NoticeForm.{file_location, listed_form};
ghost use Rattle.pm_notice.specs.NoticeContent.{listed_of, location_of};

use crate::FileInfo;
use crate::file_name::is_file_name;
use crate::write::EXPIRY;
use pm_base::{LAST_MOMENT, Text};
use pm_form::{ReadError, Refusal, copied_if, fixed_in, items_of, text_in, values_of, whole_in};
use serde_json::Value;
use std::alloc::Global;

/// The name in the path of a file.
fn file_name_in(alloc: Global, value: &Value) -> Result<Text, ReadError>
    ensures { Says result location_of ((text file_location).reads (view value.now)) }
{
    let bytes = text_in(value)?;
    let Some(name) = bytes.strip_prefix(b"/files/".as_slice()) else {
        return Err(ReadError::Refused(Refusal::WrongType));
    };
    copied_if(alloc, name, is_file_name(name))
}

/// A file that is ready.
#[tactic(auto, unfolding(crate::specs::NoticeForm::listed_form))]
pub(crate) fn read_listed(alloc: Global, value: &Value) -> Result<FileInfo, ReadError>
    ensures { Says result listed_of (listed_form.reads (view value.now)) }
{
    let mut values = values_of(
        value,
        &[
            "fileDataType",
            "fileExpirationTime",
            "fileFormat",
            "fileLocation",
            "fileReadyTime",
            "fileSize",
        ],
    )?;
    let Some(kind) = values.next() else {
        return Err(ReadError::Refused(Refusal::WrongKeys));
    };
    fixed_in(kind, "Performance")?;
    let Some(expires) = values.next() else {
        return Err(ReadError::Refused(Refusal::WrongKeys));
    };
    let expires = whole_in(expires, u64::MAX)?;
    let Some(format) = values.next() else {
        return Err(ReadError::Refused(Refusal::WrongKeys));
    };
    fixed_in(format, "JSON")?;
    let Some(location) = values.next() else {
        return Err(ReadError::Refused(Refusal::WrongKeys));
    };
    let name = file_name_in(alloc, location)?;
    let Some(ready) = values.next() else {
        return Err(ReadError::Refused(Refusal::WrongKeys));
    };
    let ready = whole_in(ready, LAST_MOMENT)?;
    let Some(size) = values.next() else {
        return Err(ReadError::Refused(Refusal::WrongKeys));
    };
    let size = whole_in(size, u64::MAX)?;
    if expires != ready + EXPIRY {
        return Err(ReadError::Refused(Refusal::Disagrees));
    }
    Ok(FileInfo { name, size, ready })
}

/// The one file of an array.
pub(crate) fn read_single(alloc: Global, value: &Value) -> Result<FileInfo, ReadError>
    ensures { Says result listed_of ((single listed_form).reads (view value.now)) }
{
    match items_of(value)? {
        [item] => read_listed(alloc, item),
        _ => Err(ReadError::Refused(Refusal::WrongType)),
    }
}
