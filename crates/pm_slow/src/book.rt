//! What bodies ask for, as a table that the caller fills.
ghost use Rattle.std.specs.Prelude.{◌≡◌};
ghost use Rattle.pm_slow.specs.Book.{is_meaning_of, terms_among, terms_in};

use crate::terms::Terms;
use pm_base::Blob;
use pm_history::Side;
use std::marker::Model;

/// What one body of a job, or of a monitor, asks for.
#[derive(Drop)]
pub struct Meaning {
    pub side: Side,
    pub body: Blob,
    pub terms: Terms,
}

impl Model for Meaning {
    ghost use Rattle.pm_slow.specs.Book.{MeaningState};

    ghost Value = { MeaningState };

    ghost view = { λ m. record { side = m.side; body = m.body; terms = m.terms } };
}

impl Meaning {
    fn is_of(&self, side: Side, body: &[u8]) -> bool
        ensures { result ≡ is_meaning_of side body.now self.now }
    {
        self.side == side && self.body.as_bytes() == body
    }

    fn terms(&self) -> &Terms
        ensures { result.now ≡ self.now.terms }
    {
        &self.terms
    }
}

/// What each body asks for; where two meanings are of one body, the first counts. `otherwise` is what a body asks for that isn't here.
#[derive(Drop)]
pub struct Book {
    pub meanings: Vec<Meaning>,
    pub otherwise: Terms,
}

impl Model for Book {
    ghost use Rattle.pm_slow.specs.Book.{BookState};

    ghost Value = { BookState };

    ghost view = { λ b. record { meanings = b.meanings.items; otherwise = b.otherwise } };
}

impl Book {
    /// What a body asks for.
    pub fn terms(&self, side: Side, body: &[u8]) -> &Terms
        ensures { result.now ≡ terms_in self.now side body.now }
    {
        terms_among(self.meanings.as_slice(), &self.otherwise, side, body)
    }
}

fn terms_among<'a>(
    meanings: &'a [Meaning],
    otherwise: &'a Terms,
    side: Side,
    body: &[u8],
) -> &'a Terms
    ensures { result.now ≡ terms_among meanings.now otherwise.now side body.now }
{
    match meanings {
        [] => otherwise,
        [first, rest @ ..] => {
            if first.is_of(side, body) {
                first.terms()
            } else {
                terms_among(rest, otherwise, side, body)
            }
        }
    }
}
