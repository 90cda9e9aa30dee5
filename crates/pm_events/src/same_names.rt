//! Whether two texts are the same, sixteen bytes at a time.
ghost use Rattle.std.specs.Prelude.{◌≡◌, ◌≤◌, ◌<◌, ◌+◌, ◌↔◌, ℕ, length, IsTrue, slice_index};
ghost use Rattle.pm_events.specs.SamePieces.{AreSameFrom};

use std::simd::prelude::*;

/// Whether two texts are the same. Of 16 to 96 bytes no branch depends on how many there are: where they end early, the
/// last sixteen are compared more than once.
#[inline(always)]
pub fn is_same(a: &[u8], b: &[u8]) -> bool
    ensures { IsTrue result ↔ (a.now ≡ b.now) }
{
    if a.len() != b.len() {
        return false;
    }
    if a.len() < 16 || a.len() > 96 {
        return is_same_any(a, b);
    }
    let last = a.len() - 16;
    is_same_piece(a, b, 0)
        & is_same_piece(a, b, last.min(16))
        & is_same_piece(a, b, last.min(32))
        & is_same_piece(a, b, last.min(48))
        & is_same_piece(a, b, last.min(64))
        & is_same_piece(a, b, last)
}

#[cold]
#[inline(never)]
fn is_same_any(a: &[u8], b: &[u8]) -> bool
    ensures { IsTrue result ↔ (a.now ≡ b.now) }
{
    a == b
}

// Whether the sixteen bytes from a place on are the same.
#[inline(always)]
fn is_same_piece(a: &[u8], b: &[u8], at: usize) -> bool
    requires left { at + 16 ≤ length a.now }
    requires right { at + 16 ≤ length b.now }
    ensures same { IsTrue result → AreSameFrom a.now b.now at (at + 16) }
    ensures whole { a.now ≡ b.now → IsTrue result }
{
    !u8x16::from_slice(&a[at..])
        .simd_ne(u8x16::from_slice(&b[at..]))
        .any()
}
