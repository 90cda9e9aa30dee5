//! The words of a line, which single spaces part: a further space makes an empty word, which counts.
ghost use Rattle.std.specs.Prelude.{◌≡◌, ◌⊎◌, ◌∷◌, MatchOption, length, option_to_list};
ghost use Rattle.std.specs.Option.{option_copied};
ghost use Rattle.pm_base.specs.Pieces.{words_of};
ghost use Rattle.pm_meas.specs.Def.{AreFourOrFive};

use pm_base::cut_at;

/// The words of a line that has four or five.
#[derive(Drop)]
pub struct Words<'a> {
    pub name: &'a [u8],
    pub class: &'a [u8],
    pub kind: &'a [u8],
    pub reduce: &'a [u8],
    pub number: Option<&'a [u8]>,
}

// The words of a text that has one or two.
fn one_or_two(text: &[u8]) -> Option<(&[u8], Option<&[u8]>)>
    ensures { MatchOption result
        ((length (words_of text.now) ≡ 1) ⊎ (length (words_of text.now) ≡ 2) → ⊥)
        (λ w. words_of text.now ≡ w.0.now ∷ option_to_list (option_copied w.1)) }
{
    let Some((first, second)) = cut_at(b' ', text) else {
        return Some((text, None));
    };
    match cut_at(b' ', second) {
        None => Some((first, Some(second))),
        Some(_) => None,
    }
}

/// The words; none where there are fewer than four or more than five.
pub fn split(line: &[u8]) -> Option<Words<'_>>
    ensures { MatchOption result (AreFourOrFive (words_of line.now) → ⊥) (λ w.
        words_of line.now ≡ w.name.now ∷ w.class.now ∷ w.kind.now ∷ w.reduce.now ∷ option_to_list (option_copied w.number)) }
{
    let (name, rest) = cut_at(b' ', line)?;
    let (class, rest) = cut_at(b' ', rest)?;
    let (kind, rest) = cut_at(b' ', rest)?;
    let (reduce, number) = one_or_two(rest)?;
    Some(Words {
        name,
        class,
        kind,
        reduce,
        number,
    })
}
