//! The words of a line of ratios.
ghost use Rattle.std.specs.Prelude.{◌≡◌, false, true, None, Some, MatchOption, bytes_eq, codes};
ghost use Rattle.pm_base.specs.Pieces.{words_of};
ghost use Rattle.pm_kpi.specs.Ratio.{words_in};

use pm_base::cut_at;

/// The words behind the first word of a line `ratio NAME NUM DEN`.
#[derive(Clone, Copy, Debug)]
pub(crate) struct RatioWords<'a> {
    pub name: &'a [u8],
    pub above: &'a [u8],
    pub below: &'a [u8],
}

/// The words of the line; none where they aren't four, or the first isn't `ratio`.
pub(crate) fn ratio_words(line: &[u8]) -> Option<RatioWords<'_>>
    ensures { MatchOption result (words_in (words_of line.now) ≡ None) (λ w. words_in (words_of line.now) ≡ Some (record { name = w.name.now; above = w.above.now; below = w.below.now })) }
{
    let (word, rest) = cut_at(b' ', line)?;
    let (name, rest) = cut_at(b' ', rest)?;
    let (above, below) = cut_at(b' ', rest)?;
    match cut_at(b' ', below) {
        None => behind(word, RatioWords { name, above, below }),
        Some(_) => None,
    }
}

// The words behind this one, if it is `ratio`.
fn behind<'a>(word: &[u8], words: RatioWords<'a>) -> Option<RatioWords<'a>>
    ensures { MatchOption result (bytes_eq word.now (codes "ratio") ≡ false) (λ w. (bytes_eq word.now (codes "ratio") ≡ true) × (w ≡ words.entry)) }
{
    if is_ratio(word) { Some(words) } else { None }
}

fn is_ratio(word: &[u8]) -> bool
    ensures { result ≡ bytes_eq word.now (codes "ratio") }
{
    word == b"ratio".as_slice()
}
