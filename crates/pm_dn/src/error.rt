//! Why a name or an object is refused.
ghost use Rattle.std.specs.Prelude.{◌≡◌};
ghost use Rattle.pm_dn.specs.Tree.{tree_error, tree_code};

use pm_base::Code;
use thiserror::Error;

/// Why bytes are not a distinguished name: the first rule broken.
#[derive(Clone, Copy, Debug, PartialEq, Eq, Error)]
pub enum DnError {
    /// The name has over 256 bytes, or a class or an id over 64.
    #[error("the name has over 256 bytes, or a class or an id in it over 64")]
    N4,
    /// A part, its class or its id is empty.
    #[error("a part of the name, its class or its id is empty")]
    N1,
    /// A part has no `=`.
    #[error("a part of the name has no `=`")]
    N2,
    /// A class begins with no letter, or a character is out of the alphabet.
    #[error("a class in the name begins with no letter, or a character is out of the alphabet")]
    N3,
    /// The name has over 8 parts.
    #[error("the name has over 8 parts")]
    N5,
    /// Out of memory.
    #[error("out of memory")]
    Memory,
}

/// Why an object is not added to a tree: the first rule broken.
#[derive(Clone, Copy, Debug, PartialEq, Eq, Error)]
pub enum TreeError {
    /// The name has over 256 bytes, or a class or an id over 64.
    #[error("the name has over 256 bytes, or a class or an id in it over 64")]
    N4,
    /// A part of the name, its class or its id is empty.
    #[error("a part of the name, its class or its id is empty")]
    N1,
    /// A part has no `=`.
    #[error("a part of the name has no `=`")]
    N2,
    /// A class begins with no letter, or a character is out of the alphabet.
    #[error("a class in the name begins with no letter, or a character is out of the alphabet")]
    N3,
    /// The name has over 8 parts.
    #[error("the name has over 8 parts")]
    N5,
    /// The classes of the parts aren't a path of the containment, from ManagedElement down.
    #[error("the classes of the name are not a path of the containment")]
    N6,
    /// An object of this name exists.
    #[error("an object of this name exists")]
    N8,
    /// A ManagedElement exists already.
    #[error("a ManagedElement exists already")]
    N10,
    /// The object that contains this one doesn't exist.
    #[error("the object that contains this one does not exist")]
    N7,
    /// `MAX_OBJECTS` exist.
    #[error("256 objects exist")]
    N9,
    /// Out of memory; no rule is broken.
    #[error("out of memory")]
    Memory,
}

impl From<DnError> for TreeError {
    ghost from_gives = { λ code result. result ≡ tree_error code };

    fn from(code: DnError) -> TreeError {
        match code {
            DnError::N4 => TreeError::N4,
            DnError::N1 => TreeError::N1,
            DnError::N2 => TreeError::N2,
            DnError::N3 => TreeError::N3,
            DnError::N5 => TreeError::N5,
            DnError::Memory => TreeError::Memory,
        }
    }
}

impl TreeError {
    /// The code by which the refusal is told.
    pub fn code(&self) -> Code
        ensures { result ≡ tree_code self.now }
    {
        match self {
            TreeError::N1 => Code::N1,
            TreeError::N2 => Code::N2,
            TreeError::N3 => Code::N3,
            TreeError::N4 => Code::N4,
            TreeError::N5 => Code::N5,
            TreeError::N6 => Code::N6,
            TreeError::N7 => Code::N7,
            TreeError::N8 => Code::N8,
            TreeError::N9 => Code::N9,
            TreeError::N10 => Code::N10,
            TreeError::Memory => Code::MEM,
        }
    }
}
