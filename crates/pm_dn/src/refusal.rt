//! The first rule of the grammar of names that a text breaks.
ghost use Rattle.std.specs.Prelude.{◌≡◌, ◌<◌, length};
ghost use Rattle.std.specs.List.{list_all};
ghost use Rattle.std.specs.Char.{is_ascii_alphanumeric};
ghost use Rattle.pm_dn.specs.Refusal.{part_refusal, name_refusal, is_of_class_alphabet, is_of_id_alphabet};

use crate::error::DnError;
use crate::pieces::{Pieces, class_and_id};
use pm_base::WORD_BYTES;

/// The most bytes of a name.
pub const NAME_BYTES: usize = 256;

/// The most parts of a name.
pub const NAME_PARTS: usize = 8;

fn is_alphanumeric(bytes: &[u8]) -> bool
    ensures { result ≡ list_all is_ascii_alphanumeric bytes.now }
{
    bytes.iter().all(|b| b.is_ascii_alphanumeric())
}

fn is_of_class_alphabet(class: &[u8]) -> bool
    requires { 0 < length class.now }
    ensures { result ≡ is_of_class_alphabet class.now }
{
    class[0].is_ascii_alphabetic() && is_alphanumeric(class)
}

fn is_of_id_alphabet(id: &[u8]) -> bool
    ensures { result ≡ is_of_id_alphabet id.now }
{
    id.iter()
        .all(|b| b.is_ascii_alphanumeric() || *b == b'-' || *b == b'.')
}

/// The first rule that one part breaks.
pub(crate) fn part_refusal(piece: &[u8]) -> Option<DnError>
    ensures { result ≡ part_refusal piece.now }
{
    if piece.is_empty() {
        return Some(DnError::N1);
    }
    let Some((class, id)) = class_and_id(piece) else {
        return Some(DnError::N2);
    };
    if class.is_empty() || id.is_empty() {
        return Some(DnError::N1);
    }
    if !(is_of_class_alphabet(class) && is_of_id_alphabet(id)) {
        return Some(DnError::N3);
    }
    if class.len() > WORD_BYTES || id.len() > WORD_BYTES {
        return Some(DnError::N4);
    }
    None
}

/// The first rule of the grammar that these bytes break.
pub(crate) fn name_refusal(bytes: &[u8]) -> Option<DnError>
    ensures { result ≡ name_refusal bytes.now }
{
    if bytes.len() > NAME_BYTES {
        return Some(DnError::N4);
    }
    let mut pieces = Pieces::of(bytes);
    let mut count = 0;
    while let Some(piece) = pieces.next_piece() {
        if let Some(code) = part_refusal(piece) {
            return Some(code);
        }
        count += 1;
    }
    if count > NAME_PARTS {
        return Some(DnError::N5);
    }
    None
}
