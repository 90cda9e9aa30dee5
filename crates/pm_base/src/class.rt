//! The classes of managed objects.
ghost use Rattle.std.specs.Prelude.{◌≡◌, ◌≢◌, ◌↔◌, MatchOption, IsTrue};
ghost use Rattle.pm_base.specs.Class.{class_name};

/// The class of a managed object, of TS 28.541: NRCellCU is contained in GNBCUCPFunction, NRCellDU in GNBDUFunction, and
/// both functions in ManagedElement, the root.
#[derive(Clone, Copy, Debug, PartialEq, Eq)]
pub enum Class {
    /// ManagedElement
    ManagedElement,
    /// GNBCUCPFunction
    GnbCuCp,
    /// NRCellCU
    NrCellCu,
    /// GNBDUFunction
    GnbDu,
    /// NRCellDU
    NrCellDu,
}

/// The classes, in byte order of their names.
pub const CLASSES: [Class; 5] = [
    Class::GnbCuCp,
    Class::GnbDu,
    Class::ManagedElement,
    Class::NrCellCu,
    Class::NrCellDu,
];

impl Class {
    /// The name by which the class stands in distinguished names, inventories and reports.
    pub fn name(self) -> &'static str
        ensures { result.now ≡ class_name self }
    {
        match self {
            Class::ManagedElement => "ManagedElement",
            Class::GnbCuCp => "GNBCUCPFunction",
            Class::NrCellCu => "NRCellCU",
            Class::GnbDu => "GNBDUFunction",
            Class::NrCellDu => "NRCellDU",
        }
    }

    /// The class of this name; none where no class has it.
    pub fn from_name(name: &[u8]) -> Option<Class>
        ensures { MatchOption result ((class : Class) → class_name class ≢ name.now) (λ class. class_name class ≡ name.now) }
    {
        if Class::ManagedElement.has_name(name) {
            Some(Class::ManagedElement)
        } else if Class::GnbCuCp.has_name(name) {
            Some(Class::GnbCuCp)
        } else if Class::NrCellCu.has_name(name) {
            Some(Class::NrCellCu)
        } else if Class::GnbDu.has_name(name) {
            Some(Class::GnbDu)
        } else if Class::NrCellDu.has_name(name) {
            Some(Class::NrCellDu)
        } else {
            None
        }
    }

    fn has_name(self, name: &[u8]) -> bool
        ensures { IsTrue result ↔ (class_name self ≡ name.now) }
    {
        self.name().as_bytes() == name
    }
}
