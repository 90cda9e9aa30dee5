//! The containment of managed objects, of TS 28.541.
ghost use Rattle.std.specs.Prelude.{◌≡◌, None};
ghost use Rattle.std.specs.Str.{bytes_eq};
ghost use Rattle.pm_base.specs.Class.{class_name};
ghost use Rattle.pm_dn.specs.Name.{part_of};
ghost use Rattle.pm_dn.specs.Refusal.{name_refusal};
ghost use Rattle.pm_dn.specs.Tree.{is_under};
ghost use Rattle.pm_dn.specs.Containment.{path_to, has_path_to, class_of, superior_text};

use crate::pieces::{Pieces, class_and_id};
use memchr::memrchr;
use pm_base::{CLASSES, Class};

/// The classes from the root down to this class.
fn path_to(class: Class) -> &'static [Class]
    ensures { result.now ≡ path_to class }
{
    match class {
        Class::ManagedElement => &[Class::ManagedElement],
        Class::GnbCuCp => &[Class::ManagedElement, Class::GnbCuCp],
        Class::NrCellCu => &[Class::ManagedElement, Class::GnbCuCp, Class::NrCellCu],
        Class::GnbDu => &[Class::ManagedElement, Class::GnbDu],
        Class::NrCellDu => &[Class::ManagedElement, Class::GnbDu, Class::NrCellDu],
    }
}

/// The class that stands in a part.
pub(crate) fn class_word(piece: &[u8]) -> &[u8]
    ensures { result.now ≡ (part_of piece.now).class }
{
    match class_and_id(piece) {
        Some((class, _)) => class,
        None => piece,
    }
}

/// Whether that is this class's name.
fn is_of_class(piece: &[u8], class: Class) -> bool
    ensures { result ≡ bytes_eq (part_of piece.now).class (class_name class) }
{
    class_word(piece) == class.name().as_bytes()
}

pub(crate) fn has_path_to(class: Class, name: &[u8]) -> bool
    ensures { result ≡ has_path_to class name.now }
{
    let mut pieces = Pieces::of(name);
    for step in path_to(class) {
        let Some(piece) = pieces.next_piece() else {
            return false;
        };
        if !is_of_class(piece, *step) {
            return false;
        }
    }
    pieces.next_piece().is_none()
}

/// The class of the object of this name; none where the classes of the parts aren't a path from the root.
pub(crate) fn class_of(name: &[u8]) -> Option<Class>
    ensures { result ≡ class_of name.now }
{
    CLASSES
        .iter()
        .copied()
        .find(|class| has_path_to(*class, name))
}

/// The text of the name's superior, which is empty where the name has one part.
pub(crate) fn superior(name: &[u8]) -> &[u8]
    requires { name_refusal name.now ≡ None }
    ensures { result.now ≡ superior_text name.now }
{
    match memrchr(b',', name) {
        Some(comma) => &name[..comma],
        None => &[],
    }
}

/// Whether the parts of the name begin with those of the root's name. Of the bytes it asks for a comma behind those of the
/// root, or else `NRCellCU=7` would stand above `NRCellCU=70`.
pub(crate) fn is_under(root: &[u8], name: &[u8]) -> bool
    requires root_named { name_refusal root.now ≡ None }
    requires named { name_refusal name.now ≡ None }
    ensures { result ≡ is_under root.now name.now }
{
    match name.strip_prefix(root) {
        Some(rest) => rest.is_empty() || rest[0] == b',',
        None => false,
    }
}
