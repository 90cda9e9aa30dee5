//! Copies of texts.
ghost use Rattle.std.specs.Prelude.{◌≡◌, IfOk};

use pm_base::Text;
use std::alloc::{AllocError, Global};

pub(crate) fn copy(alloc: Global, text: &Text) -> Result<Text, AllocError>
    ensures { IfOk result (λ t. t ≡ text.now) }
{
    Text::from_slice(alloc, text.as_bytes())
}
