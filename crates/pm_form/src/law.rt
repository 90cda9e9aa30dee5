//! A tree says a value exactly where it is the value's tree and the value fits.
ghost use Rattle.std.specs.Prelude.{ℕ, List, Bool};
ghost use Rattle.pm_form.specs.Form.{IsExact};
ghost use Rattle.pm_form.specs.Values.{text, fixed, flag, whole, whole_or_null};

/// A law of the forms of single values. Those of arrays and objects have it from their parts.
pub fn values_are_exact()
    ensures texts { (test : List ℕ → Bool) → IsExact (text test) }
    ensures fixed_texts { (word : List ℕ) → IsExact (fixed word) }
    ensures flags { IsExact flag }
    ensures numbers { (most : ℕ) → IsExact (whole most) }
    ensures nulls { (most : ℕ) → IsExact (whole_or_null most) }
{}
