//! The statuses of a run's ends.

use crate::{SessionEnd, Status};
use pm_base::Code;
use pm_engine::OpenError;
use pm_inventory::InventoryError;
use pm_outside::MOST_READ;

impl From<SessionEnd> for Status {
    ghost use Rattle.std.specs.Prelude.{◌≡◌, ◌≢◌};
    ghost use Rattle.pm_top.specs.Ends.{status_of_session, is_read_fault, is_write_fault, is_store_fault};
    ghost use Rattle.pm_top.specs.Session.{ends_by_read, ends_by_write, ends_by_store};

    fn from(end: SessionEnd) -> Status
        ensures status { result ≡ status_of_session end }
        ensures read { is_read_fault result ≡ ends_by_read end }
        ensures write { is_write_fault result ≡ ends_by_write end }
        ensures store { is_store_fault result ≡ ends_by_store end }
        ensures known { result ≢ Status.Usage }
    {
        match end {
            SessionEnd::Ended | SessionEnd::Closed => Status::Done,
            SessionEnd::Framing { code, offset } => Status::BadInput {
                place: offset,
                code,
            },
            SessionEnd::CutShort { offset } => Status::BadInput {
                place: offset,
                code: Code::H9,
            },
            SessionEnd::Limit => Status::BadInput {
                place: MOST_READ,
                code: Code::Z1,
            },
            SessionEnd::ReadFault => Status::ReadFault,
            SessionEnd::WriteFault => Status::WriteFault,
            SessionEnd::StoreFault => Status::StoreFault,
            SessionEnd::StoreFull { length, need } => Status::StoreFull { length, need },
            SessionEnd::Memory => Status::Memory,
        }
    }
}

impl From<OpenError> for Status {
    ghost use Rattle.std.specs.Prelude.{◌≡◌, ◌≢◌, false};
    ghost use Rattle.pm_top.specs.Ends.{status_of_opening, is_read_fault, is_write_fault, is_store_fault, is_failed_opening};

    fn from(error: OpenError) -> Status
        ensures status { result ≡ status_of_opening error }
        ensures read { is_read_fault result ≡ false }
        ensures write { is_write_fault result ≡ false }
        ensures store { is_store_fault result ≡ is_failed_opening error }
        ensures known { result ≢ Status.Usage }
    {
        match error {
            OpenError::StoreFault => Status::StoreFault,
            OpenError::Foreign => Status::Foreign,
            OpenError::Garbled { offset } => Status::Garbled { offset },
            OpenError::StoreFull { length, need } => Status::StoreFull { length, need },
            OpenError::Memory => Status::Memory,
        }
    }
}

impl From<InventoryError> for Status {
    ghost use Rattle.std.specs.Prelude.{◌≡◌, ◌≢◌, false, Err};
    ghost use Rattle.pm_inventory.specs.InventoryReading.{is_read_failed};
    ghost use Rattle.pm_top.specs.Ends.{status_of_inventory, is_read_fault, is_write_fault, is_store_fault};

    fn from(error: InventoryError) -> Status
        ensures status { result ≡ status_of_inventory error }
        ensures read { is_read_fault result ≡ is_read_failed (Err error) }
        ensures write { is_write_fault result ≡ false }
        ensures store { is_store_fault result ≡ false }
        ensures known { result ≢ Status.Usage }
    {
        match error {
            InventoryError::Refused { line, code } => Status::BadInventory { line, code },
            InventoryError::Failed => Status::ReadFault,
            InventoryError::Limit => Status::BadInput {
                place: MOST_READ,
                code: Code::Z1,
            },
            InventoryError::Memory => Status::Memory,
        }
    }
}
