//! The parts of a text: what stands between its commas, and before and behind the first `=` of each.
ghost use Rattle.std.specs.Prelude.{◌≡◌, true, false, [], ◌∷◌, MatchOption};
ghost use Rattle.std.specs.List.{list_any};
ghost use Rattle.pm_base.specs.Pieces.{pieces_of};
ghost use Rattle.pm_dn.specs.Name.{is_equals, part_of};

use pm_base::cut_at;
use std::marker::Model;

/// The class and the id of a part; none where it has no `=`.
pub(crate) fn class_and_id(piece: &[u8]) -> Option<(&[u8], &[u8])>
    ensures { MatchOption result
        (list_any is_equals piece.now ≡ false)
        (λ x. (list_any is_equals piece.now ≡ true)
        × (x.0.now ≡ (part_of piece.now).class)
        × (x.1.now ≡ (part_of piece.now).id)) }
{
    cut_at(b'=', piece)
}

/// The pieces of a text that are still to come, seen as their list.
#[derive(Drop)]
pub(crate) struct Pieces<'a> {
    rest: &'a [u8],
    is_done: bool,
}

impl<'a> Model for Pieces<'a> {
    ghost use Rattle.std.specs.Prelude.{ℕ, List, [], if◌then◌else◌};
    ghost use Rattle.pm_base.specs.Pieces.{pieces_of};

    ghost Value = { List (List ℕ) };

    ghost view = { λ p. if p.is_done then [] else pieces_of 44 p.rest.now };
}

impl<'a> Pieces<'a> {
    /// All pieces of a text, of which there is at least one.
    pub(crate) fn of(text: &'a [u8]) -> Pieces<'a>
        ensures { result ≡ pieces_of 44 text.now }
    {
        Pieces {
            rest: text,
            is_done: false,
        }
    }

    /// The next piece.
    pub(crate) fn next_piece(&mut self) -> Option<&'a [u8]>
        ensures { MatchOption result
            ((self.old ≡ []) × (self.new ≡ []))
            (λ piece. self.old ≡ piece.now ∷ self.new) }
    {
        if self.is_done {
            return None;
        }
        match cut_at(b',', self.rest) {
            Some((piece, rest)) => {
                self.rest = rest;
                Some(piece)
            }
            None => {
                self.is_done = true;
                Some(self.rest)
            }
        }
    }
}
