//! Cutting a byte string into pieces.
ghost use Rattle.std.specs.Prelude.{◌≡◌, ◌∷◌, [], MatchOption};
ghost use Rattle.pm_base.specs.Pieces.{pieces_of};

use memchr::memchr;

/// The piece before the first of these bytes, and what follows it; none where the byte stands nowhere.
#[inline(always)]
pub fn cut_at(byte: u8, bytes: &[u8]) -> Option<(&[u8], &[u8])>
    ensures { MatchOption result (pieces_of byte bytes.now ≡ bytes.now ∷ []) (λ cut. pieces_of byte bytes.now ≡ cut.0.now ∷ pieces_of byte cut.1.now) }
{
    match memchr(byte, bytes) {
        None => None,
        Some(at) => Some((&bytes[..at], &bytes[at + 1..])),
    }
}
