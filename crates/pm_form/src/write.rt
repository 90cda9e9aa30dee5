//! The steps that each document's writing is made of, beside those of json's writer.
ghost use Rattle.std.specs.Prelude.{ℕ, List, Option, IsUtf8};
ghost use Rattle.serde_json.specs.Data.{string};
ghost use Rattle.pm_form.specs.Says.{Appends};
ghost use Rattle.pm_form.specs.Values.{or_null_tree};

use json::Writer;
use std::alloc::AllocError;

/// Writes a string.
pub fn text_token(out: &mut Writer, text: &[u8]) -> Result<(), AllocError>
    requires { IsUtf8 text.now }
    ensures { Appends result out.old out.new (string text.now) }
{
    match str::from_utf8(text) {
        Ok(text) => out.string(text),
        Err(_) => unreachable!(),
    }
}

/// Writes a number or null.
pub fn whole_or_null_token(out: &mut Writer, value: Option<u64>) -> Result<(), AllocError>
    ensures { Appends result out.old out.new (or_null_tree value) }
{
    match value {
        Some(n) => out.u64(n),
        None => out.null(),
    }
}
