//! Connectives, each as a call whose result is known.
ghost use Rattle.std.specs.Prelude.{◌≡◌, ◌&&◌, ◌||◌};

pub(crate) fn or(one: bool, other: bool) -> bool
    ensures { result ≡ (one || other) }
{
    one || other
}

pub(crate) fn and(one: bool, other: bool) -> bool
    ensures { result ≡ (one && other) }
{
    one && other
}
