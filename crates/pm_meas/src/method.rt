//! The kind and the reduction that the words of a line name.
ghost use Rattle.std.specs.Prelude.{◌≡◌, ◌≢◌, ◌≤◌, ◌↔◌, ◌∷◌, ℕ, length, MatchOption, IsTrue, option_to_list};
ghost use Rattle.std.specs.Option.{option_copied};
ghost use Rattle.std.specs.Fmt.{decimal};
ghost use Rattle.std.specs.Str.Parse.{AllDigits, digits_value};
ghost use Rattle.pm_meas.specs.Def.{IsKind, IsMethod, GoTogether, kind_word, reduce_word, number_words, method_words};

use crate::kind::{Kind, Reduce};
use crate::words::Words;

// The number that at most four digits write; none of anything else.
fn value(digits: &[u8]) -> Option<u32>
    requires { length digits.now ≤ 4 }
    ensures { MatchOption result (AllDigits 10 digits.now → ⊥) (λ n. AllDigits 10 digits.now × (n ≡ digits_value 10 digits.now)) }
{
    let mut n = 0;
    for c in digits {
        n = n * 10 + char::from(*c).to_digit(10)?;
    }
    Some(n)
}

// n of discrete event registration, 1 to 1,000 with no leading zero.
fn number(word: &[u8]) -> Option<u32>
    ensures { MatchOption result ((n : ℕ) → 1 ≤ n → n ≤ 1000 → decimal n ≢ word.now) (λ n. (1 ≤ n) × (n ≤ 1000) × (decimal n ≡ word.now)) }
{
    if word.is_empty() || word.len() > 4 || word[0] == b'0' {
        return None;
    }
    let n = value(word)?;
    if n <= 1000 { Some(n) } else { None }
}

// The kind whose words these are, the second of them for `DER` alone.
fn kind_of(word: &[u8], second: Option<&[u8]>) -> Option<Kind>
    ensures { MatchOption result ((k : Kind) → IsKind k → kind_word k ∷ number_words k ≢ word.now ∷ option_to_list (option_copied second.entry)) (λ k.
        IsKind k × (kind_word k ∷ number_words k ≡ word.now ∷ option_to_list (option_copied second.entry))) }
{
    match (word, second) {
        (b"DER", Some(second)) => Some(Kind::Der { n: number(second)? }),
        (b"CC", None) => Some(Kind::Cc),
        (b"GAUGE", None) => Some(Kind::Gauge),
        (b"SI", None) => Some(Kind::Si),
        _ => None,
    }
}

// The reduction of this word.
fn reduction(word: &[u8]) -> Option<Reduce>
    ensures { MatchOption result ((r : Reduce) → reduce_word r ≢ word.now) (λ r. reduce_word r ≡ word.now) }
{
    match word {
        b"SUM" => Some(Reduce::Sum),
        b"MEAN" => Some(Reduce::Mean),
        b"MAX" => Some(Reduce::Max),
        b"MIN" => Some(Reduce::Min),
        _ => None,
    }
}

// Whether a reduction goes with a kind: counters are summed, and nothing else is.
fn go_together(kind: Kind, reduce: Reduce) -> bool
    ensures { IsTrue result ↔ GoTogether kind reduce }
{
    matches!(kind, Kind::Cc) == matches!(reduce, Reduce::Sum)
}

/// The kind and the reduction of the words behind the class; none where they don't go together.
pub fn method(words: &Words) -> Option<(Kind, Reduce)>
    ensures { MatchOption result ((k : Kind) (r : Reduce) → IsMethod k r → method_words k r ≢ words.now.kind.now ∷ words.now.reduce.now ∷ option_to_list (option_copied words.now.number)) (λ m.
        IsMethod m.0 m.1 × (method_words m.0 m.1 ≡ words.now.kind.now ∷ words.now.reduce.now ∷ option_to_list (option_copied words.now.number))) }
{
    let kind = kind_of(words.kind, words.number)?;
    let reduce = reduction(words.reduce)?;
    if go_together(kind, reduce) {
        Some((kind, reduce))
    } else {
        None
    }
}
