//! The status of a tally's end.

use crate::Status;
use pm_base::Code;
use pm_tally::TallyEnd;

// The place of a refusal of inputs that are too long: the most bytes that are read.
const MOST_READ: u64 = 1_099_511_627_776;

impl From<TallyEnd> for Status {
    ghost use Rattle.std.specs.Prelude.{◌≡◌};
    ghost use Rattle.pm_top.specs.Ends.{status_of_tally};

    fn from(end: TallyEnd) -> Status
        ensures { result ≡ status_of_tally end }
    {
        match end {
            TallyEnd::Done => Status::Done,
            TallyEnd::Refused { line, code } => Status::BadInput { place: line, code },
            TallyEnd::TooLong => Status::BadInput {
                place: MOST_READ,
                code: Code::Z1,
            },
            TallyEnd::ReadFault => Status::ReadFault,
            TallyEnd::WriteFault => Status::WriteFault,
            TallyEnd::BadInventory { line, code } => Status::BadInventory { line, code },
            TallyEnd::Memory => Status::Memory,
        }
    }
}
