//! A report that is written in the usual way, with its keys in byte order, read straight from its text.
ghost use Rattle.std.specs.Prelude.{◌≡◌, true, Ok, IfSome};
ghost use Rattle.pm_form.specs.Form.{json_of};
ghost use Rattle.pm_file.specs.ReportForm.{body_form};
ghost use Rattle.pm_file.specs.Body.{body_content};

use crate::body::ReadReport;
use crate::usual_body::usual_body;
use json::{Reader, Scratch};
use std::alloc::Global;

/// What a text says that is written in the usual way. None decides nothing: the text is read again by its tree.
pub(crate) fn usual_text(alloc: Global, bytes: &[u8]) -> Option<ReadReport>
    ensures says { IfSome result (λ b. json_of bytes.now ≡ Ok (body_form.tree (body_content b))) }
    ensures fits { IfSome result (λ b. body_form.fits (body_content b) ≡ true) }
{
    let Ok(text) = str::from_utf8(bytes) else {
        return None;
    };
    let mut scratch = Scratch::new(alloc);
    let Ok(mut reader) = Reader::new(text, &mut scratch) else {
        return None;
    };
    let body = usual_body(alloc, &mut reader)?;
    if reader.next().is_some() {
        return None;
    }
    Some(body)
}
