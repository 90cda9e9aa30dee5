//! The definitions once more, slowly and plainly: what `Dn::check` and `Tree::subtree` are compared with.
ghost use Rattle.std.specs.Prelude.{◌≡◌, ◌<◌, length, map, IfOk};
ghost use Rattle.pm_base.specs.Pieces.{pieces_of};
ghost use Rattle.pm_dn.specs.Name.{part_of};
ghost use Rattle.pm_dn.specs.Refusal.{name_refusal};
ghost use Rattle.pm_dn.specs.Tree.{part_eq, is_under, subtree_of};

use crate::containment::class_word;
use crate::error::DnError;
use crate::pieces::{Pieces, class_and_id};
use crate::refusal::part_refusal;
use crate::tree::Tree;
use std::alloc::{AllocError, Global};

/// What stands between the commas, in one list.
fn pieces_of(alloc: Global, bytes: &[u8]) -> Result<Vec<&[u8]>, AllocError>
    ensures { IfOk result (λ list. map (λ piece. piece.now) list.items ≡ pieces_of 44 bytes.now) }
{
    bytes.split(|byte| *byte == b',').collect(alloc)
}

/// The first rule of the grammar that these bytes break: the parts are listed first.
pub fn name_refusal(alloc: Global, bytes: &[u8]) -> Result<Option<DnError>, AllocError>
    ensures { IfOk result (λ refusal. refusal ≡ name_refusal bytes.now) }
{
    if bytes.len() > 256 {
        return Ok(Some(DnError::N4));
    }
    let list = pieces_of(alloc, bytes)?;
    for piece in list.iter() {
        if let Some(code) = part_refusal(piece) {
            return Ok(Some(code));
        }
    }
    if list.len() > 8 {
        return Ok(Some(DnError::N5));
    }
    Ok(None)
}

/// The id that stands in a part.
fn id_word(piece: &[u8]) -> &[u8]
    ensures { result.now ≡ (part_of piece.now).id }
{
    match class_and_id(piece) {
        Some((_, id)) => id,
        None => &[],
    }
}

fn is_same_part(a: &[u8], b: &[u8]) -> bool
    ensures { result ≡ part_eq (part_of a.now) (part_of b.now) }
{
    class_word(a) == class_word(b) && id_word(a) == id_word(b)
}

/// Whether the parts of the name begin with those of the root's name, part by part.
pub fn is_under(root: &[u8], name: &[u8]) -> bool
    ensures { result ≡ is_under root.now name.now }
{
    let mut roots = Pieces::of(root);
    let mut names = Pieces::of(name);
    while let Some(a) = roots.next_piece() {
        let Some(b) = names.next_piece() else {
            return false;
        };
        if !is_same_part(a, b) {
            return false;
        }
    }
    true
}

/// The numbers of the objects under a root, by their parts.
pub fn subtree_of(alloc: Global, tree: &Tree, root: u16) -> Result<Vec<u16>, AllocError>
    requires { root < length tree.now }
    ensures { IfOk result (λ objects. objects.items ≡ subtree_of tree.now root) }
{
    let top = tree.text(root);
    let mut objects = Vec::new(alloc);
    for object in 0..tree.len() {
        if is_under(top, tree.text(object)) {
            objects.push(object)?;
        }
    }
    Ok(objects)
}
