//! The text of a status, as it stands on standard error behind the program's name.
ghost use Rattle.std.specs.Prelude.{Some};
ghost use Rattle.pm_top.specs.StatusText.{status_text};

use crate::Status;
use std::fmt;

impl fmt::Display for Status {
    ghost output = { λ s. Some (status_text s) };

    fn fmt<W: fmt::Write>(&self, f: &mut fmt::Formatter<W>) -> fmt::Result {
        let exit = self.exit();
        match *self {
            Status::Done => write!(f, "status {exit} Done"),
            Status::Usage => write!(f, "status {exit} Usage"),
            Status::BadInput { place, code } => {
                let code = code.name();
                write!(f, "status {exit} BadInput at {place} {code}")
            }
            Status::ReadFault => write!(f, "status {exit} ReadFault"),
            Status::WriteFault => write!(f, "status {exit} WriteFault"),
            Status::StoreFault => write!(f, "status {exit} StoreFault"),
            Status::Foreign => write!(f, "status {exit} Foreign"),
            Status::Garbled { offset } => write!(f, "status {exit} Garbled at {offset}"),
            Status::StoreFull { length, need } => {
                write!(f, "status {exit} StoreFull {length} {need}")
            }
            Status::LinkFault => write!(f, "status {exit} LinkFault"),
            Status::BadPeer { place, code } => {
                let code = code.name();
                write!(f, "status {exit} BadPeer at {place} {code}")
            }
            Status::BadInventory { line, code } => {
                let code = code.name();
                write!(f, "status {exit} BadInventory at {line} {code}")
            }
            Status::Memory => write!(f, "status {exit} Memory"),
        }
    }
}
