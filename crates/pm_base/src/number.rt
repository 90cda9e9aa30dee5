//! Numbers in decimal digits.
ghost use Rattle.std.specs.Prelude.{◌≡◌, ◌≤◌, true, false, length, MatchOption};
ghost use Rattle.std.specs.List.{list_all, AllPass};
ghost use Rattle.std.specs.Char.{is_ascii_digit};
ghost use Rattle.pm_base.specs.Number.{is_number, is_moment, number_of};

use crate::LAST_MOMENT;

/// The number of 1 to `most` digits, leading zeros among them; none where the bytes are something else. `most` is at most
/// 19, so that the number fits.
pub fn read_number(bytes: &[u8], most: usize) -> Option<u64>
    requires { most ≤ 19 }
    ensures { MatchOption result (is_number most bytes.now ≡ false) (λ n. (is_number most bytes.now ≡ true) × (n ≡ number_of bytes.now)) }
{
    if 1 <= bytes.len() && bytes.len() <= most {
        read_digits(bytes)
    } else {
        None
    }
}

/// The moment of 1 to 12 digits; none where the bytes are something else, or a number past the last moment.
pub fn read_moment(bytes: &[u8]) -> Option<u64>
    ensures { MatchOption result (is_moment bytes.now ≡ false) (λ m. (is_moment bytes.now ≡ true) × (m ≡ number_of bytes.now)) }
{
    match read_number(bytes, 12) {
        Some(moment) if moment <= LAST_MOMENT => Some(moment),
        _ => None,
    }
}

// The number that the bytes stand for; none where one of them is no digit.
fn read_digits(bytes: &[u8]) -> Option<u64>
    requires { length bytes.now ≤ 19 }
    ensures { MatchOption result (list_all is_ascii_digit bytes.now ≡ false) (λ n. (list_all is_ascii_digit bytes.now ≡ true) × (n ≡ number_of bytes.now)) }
{
    let mut value = 0u64;
    for byte in bytes {
        if !byte.is_ascii_digit() {
            return None;
        }
        value = 10 * value + u64::from(*byte - b'0');
    }
    Some(value)
}
