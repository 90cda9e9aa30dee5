//! Two digits and fixed marks at the front of a text.
ghost use Rattle.std.specs.Prelude.{◌≡◌, ◌≢◌, ◌<◌, ◌+◌, ℕ, List, ◌∷◌, ◌++◌, MatchOption};
ghost use Rattle.pm_name.specs.FileName.{two_digits};

/// The digit at the front, and the bytes behind it.
fn split_digit(bytes: &[u8]) -> Option<(u8, &[u8])>
    ensures { MatchOption result ((n : ℕ) (rest : List ℕ) → n < 10 → bytes.now ≢ (48 + n) ∷ rest)
        (λ split. (split.0 < 10) × (bytes.now ≡ (48 + split.0) ∷ split.1.now)) }
{
    match bytes.split_first() {
        Some((b, rest)) if b.is_ascii_digit() => Some((*b - b'0', rest)),
        _ => None,
    }
}

/// The number that the two digits at the front write, and the bytes behind them.
pub(crate) fn split_two_digits(bytes: &[u8]) -> Option<(u8, &[u8])>
    ensures { MatchOption result ((n : ℕ) (rest : List ℕ) → n < 100 → bytes.now ≢ two_digits n ++ rest)
        (λ split. (split.0 < 100) × (bytes.now ≡ two_digits split.0 ++ split.1.now)) }
{
    let (tens, behind) = split_digit(bytes)?;
    let (ones, rest) = split_digit(behind)?;
    Some((tens * 10 + ones, rest))
}

/// The bytes behind a mark at the front.
pub(crate) fn split_mark<'a>(bytes: &'a [u8], mark: &[u8]) -> Option<&'a [u8]>
    ensures { MatchOption result ((rest : List ℕ) → bytes.now ≢ mark.now ++ rest)
        (λ rest. bytes.now ≡ mark.now ++ rest.now) }
{
    bytes.strip_prefix(mark)
}

/// A number below 100 in two digits.
pub(crate) fn two_digits(n: u8) -> [u8; 2]
    requires { n < 100 }
    ensures { result ≡ two_digits n }
{
    [b'0' + n / 10, b'0' + n % 10]
}
