//! The status of the end of a run of the collector.

use crate::Status;
use pm_base::Code;
use pm_fetch::FetchEnd;
use pm_outside::MOST_READ;

impl From<FetchEnd> for Status {
    ghost use Rattle.std.specs.Prelude.{◌≡◌, ◌≢◌};
    ghost use Rattle.pm_fetch.specs.Faults.{names_input, names_output, names_disk, names_link};
    ghost use Rattle.pm_top.specs.Ends.{is_read_fault, is_write_fault, is_store_fault};
    ghost use Rattle.pm_top.specs.Collect.{status_of_collect, is_link_fault};

    fn from(end: FetchEnd) -> Status
        ensures status { result ≡ status_of_collect end }
        ensures read { is_read_fault result ≡ names_input end }
        ensures write { is_write_fault result ≡ names_output end }
        ensures store { is_store_fault result ≡ names_disk end }
        ensures link { is_link_fault result ≡ names_link end }
        ensures known { result ≢ Status.Usage }
    {
        match end {
            FetchEnd::Done => Status::Done,
            FetchEnd::NoNotice { line } => Status::BadInput {
                place: line,
                code: Code::C1,
            },
            FetchEnd::TooLong => Status::BadInput {
                place: MOST_READ,
                code: Code::Z1,
            },
            FetchEnd::ReadFault => Status::ReadFault,
            FetchEnd::WriteFault => Status::WriteFault,
            FetchEnd::StoreFault => Status::StoreFault,
            FetchEnd::Foreign => Status::Foreign,
            FetchEnd::Garbled { offset } => Status::Garbled { offset },
            FetchEnd::StoreFull { length, need } => Status::StoreFull { length, need },
            FetchEnd::LinkFault => Status::LinkFault,
            FetchEnd::BadPeer { place, code } => Status::BadPeer { place, code },
            FetchEnd::Memory => Status::Memory,
        }
    }
}
