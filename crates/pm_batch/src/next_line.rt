//! The lines of a body, one by one.
ghost use Rattle.std.specs.Prelude.{◌≡◌, ◌<◌, ◌∷◌, [], length, MatchOption, IfSome};
ghost use Rattle.pm_base.specs.Lines.{lines_of};

use pm_base::cut_at;

/// The first line, its line feed left out, and what follows it; none where no byte is left.
#[inline(always)]
pub(crate) fn next_line(bytes: &[u8]) -> Option<(&[u8], &[u8])>
    ensures line { MatchOption result (lines_of bytes.now ≡ []) (λ cut. lines_of bytes.now ≡ cut.0.now ∷ lines_of cut.1.now) }
    ensures shorter { IfSome result (λ cut. length cut.1.now < length bytes.now) }
{
    if bytes.is_empty() {
        return None;
    }
    match cut_at(b'\n', bytes) {
        Some((line, behind)) => Some((line, behind)),
        None => Some((bytes, &bytes[bytes.len()..])),
    }
}
