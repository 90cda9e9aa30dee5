//! The last word of a line, where it is a short number.
ghost use Rattle.std.specs.Prelude.{◌≡◌, ◌<◌, ◌+◌, length, drop, true, IfSome, slice_index};
ghost use Rattle.pm_base.specs.Number.{is_number, number_of};

/// A number, and the place of the space before it.
#[derive(Clone, Copy, Debug)]
pub struct LastNumber {
    pub value: u64,
    pub space: usize,
}

/// The number that the last word is, if it has at most seven digits. It is read from its end to the space before it.
#[inline(always)]
pub fn last_number(words: &[u8]) -> Option<LastNumber>
    ensures space { IfSome result (λ last. (last.space < length words.now) × (slice_index words.now last.space ≡ 32)) }
    ensures number { IfSome result (λ last. is_number 10 (drop (last.space + 1) words.now) ≡ true) }
    ensures value { IfSome result (λ last. last.value ≡ number_of (drop (last.space + 1) words.now)) }
{
    let mut value = 0u64;
    let mut scale = 1u64;
    for digits in 0..8usize {
        let at = words.len().checked_sub(digits + 1)?;
        let byte = words[at];
        if byte == b' ' && digits > 0 {
            return Some(LastNumber { value, space: at });
        }
        if !byte.is_ascii_digit() {
            return None;
        }
        value += scale * u64::from(byte - b'0');
        scale *= 10;
    }
    None
}
