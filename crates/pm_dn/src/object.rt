//! One object of the tree.
ghost use Rattle.std.specs.Prelude.{◌≡◌, None, Some};
ghost use Rattle.pm_dn.specs.Refusal.{name_refusal};
ghost use Rattle.pm_dn.specs.Containment.{class_of};

use pm_base::{Class, Text};

/// The text of an object's name, and its class.
#[derive(Debug, Drop)]
pub(crate) struct Object {
    pub(crate) text: Text,
    pub(crate) class: Class,
    ghost named: { name_refusal text ≡ None },
    ghost classed: { class_of text ≡ Some class },
}
