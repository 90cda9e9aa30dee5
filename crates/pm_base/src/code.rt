//! The codes of refusals, as they stand in replies and on standard error.
ghost use Rattle.std.specs.Prelude.{◌≡◌};
ghost use Rattle.pm_base.specs.Code.{code_name};

/// Why a request or a line of input is refused. A code's letter tells what is refused, and its number by which rule.
#[derive(Clone, Copy, Debug, PartialEq, Eq)]
pub enum Code {
    /// A part of a distinguished name, its class or its id is empty.
    N1,
    /// A part of a distinguished name has no `=`.
    N2,
    /// A part of a distinguished name has a character out of its alphabet.
    N3,
    /// A distinguished name has over 256 bytes, or a class or an id in it over 64.
    N4,
    /// A distinguished name has over 8 parts.
    N5,
    /// The classes of a distinguished name are no path of the containment.
    N6,
    /// The parent of an object does not stand.
    N7,
    /// An object of this name stands.
    N8,
    /// 256 objects stand.
    N9,
    /// A second ManagedElement is added, or an inventory has none.
    N10,
    /// A line of an inventory has none of its forms, or over 2,048 bytes.
    I1,
    /// The input ends before the inventory does.
    I2,
    /// The store was begun with another inventory.
    I3,
    /// The name or the class of a measure is not permitted.
    M1,
    /// The kind, the reduction and the number of a measure do not go together.
    M2,
    /// A measure of this name stands.
    M3,
    /// 64 measures stand.
    M4,
    /// An inventory has no slot, or over 4,096.
    M5,
    /// The id or the body of a job or a monitor is not in its grammar.
    J1,
    /// A job or a monitor of this id stands and was made with other content.
    J2,
    /// A metric is neither a name nor a family of the catalogue.
    J3,
    /// An object or a root is not in the tree.
    J4,
    /// A metric has no measured object.
    J5,
    /// The granularity period is not permitted.
    J6,
    /// The reporting period is not permitted.
    J7,
    /// 32 jobs stand.
    J8,
    /// The load of all jobs and monitors would be over 4,194,304.
    J9,
    /// No job or monitor of this id stands.
    J10,
    /// The list of thresholds is not in its grammar, or a hysteresis is over its threshold.
    J11,
    /// 32 monitors stand.
    J12,
    /// A bank is asked for no slot, or over 4,096.
    B1,
    /// A bank is asked for no worker, or over 64.
    B2,
    /// As many passes are out as there are workers.
    B3,
    /// The quotas that are granted would be over 1,073,741,824.
    B4,
    /// A pass has counted as many events as its quota.
    B5,
    /// The type of a file name is neither `A` nor `C`.
    F1,
    /// The start date of a file name is no date from 1970-01-01 to 9999-12-31.
    F2,
    /// The start time of a file name is no time of the day.
    F3,
    /// The end date of a file name is no date, or stands where the type is `A`.
    F4,
    /// The end time of a file name is no time of the day, or the length of its period is not permitted.
    F5,
    /// The job id of a file name is not in its grammar.
    F6,
    /// The unique id of a file name is not in its grammar.
    F7,
    /// A report is no JSON text.
    R1,
    /// An object in a report has not exactly its keys.
    R2,
    /// A value in a report has the wrong type.
    R3,
    /// A number in a report is not whole, or out of its range.
    R4,
    /// Lengths or times in a report disagree.
    R5,
    /// 8 subscriptions stand.
    P1,
    /// No subscription of this id stands.
    P2,
    /// The id or the body of a subscription is not in its grammar.
    P3,
    /// A subscription of this id stands and was made with other content.
    P4,
    /// A line of events has not the form, or over 2,048 bytes.
    E1,
    /// A line of events names no slot.
    E2,
    /// The value of an event is over 1,048,575.
    E3,
    /// 1,073,741,824 events are registered in the tick.
    E4,
    /// The moment of an event is earlier than that of the last one.
    E5,
    /// The object of an event is marked as gone.
    E6,
    /// The bytes read are the beginning of no head of a request.
    H1,
    /// The head of a request has over 16,384 bytes or over 64 fields.
    H2,
    /// The body of a request has over 16,777,216 bytes.
    H3,
    /// A request has a Transfer-Encoding field.
    H4,
    /// No resource has this path.
    H5,
    /// The resource does not take this method.
    H6,
    /// A request has two Content-Length fields, one that is no number of 1 to 12 digits, or none where its method wants one.
    H7,
    /// The Pm-Moment field of a request is no moment of 1 to 12 digits.
    H8,
    /// The input ends inside a request.
    H9,
    /// No file of this name is listed.
    L1,
    /// The query of a listing is not in its grammar.
    L2,
    /// A line of the collector is no notice, or has over 2,048 bytes.
    C1,
    /// A body is no listing.
    C2,
    /// A fetched file is no report, or a report of another name.
    C3,
    /// A fetched file is not wanted.
    C4,
    /// A reply of a peer has not the form, or its status is not 200.
    X1,
    /// The input has passed 1,099,511,627,776 bytes.
    Z1,
    /// A request on an object has a faulty distinguished name or a body.
    O1,
    /// The inventory has no such object.
    O2,
    /// The ManagedElement can't be marked as gone.
    O3,
    /// The object is marked as gone already.
    O4,
    /// A message of a stream has neither of its forms.
    S1,
    /// A stream names no job that stands.
    S2,
    /// The stream watches this job already.
    S3,
    /// A line of ratios has not the form, or over 2,048 bytes.
    K1,
    /// A ratio of this name was given.
    K2,
    /// 64 ratios stand.
    K3,
    /// A line of elements has not the form, or over 2,048 bytes.
    G1,
    /// An element of this id was given.
    G2,
    /// No element was given, or over 64.
    G3,
    /// A peer lists a file of another element.
    G4,
    /// Memory is wanted.
    MEM,
}

impl Code {
    /// The code's text.
    pub fn name(self) -> &'static str
        ensures { result.now ≡ code_name self }
    {
        match self {
            Code::N1 => "N1",
            Code::N2 => "N2",
            Code::N3 => "N3",
            Code::N4 => "N4",
            Code::N5 => "N5",
            Code::N6 => "N6",
            Code::N7 => "N7",
            Code::N8 => "N8",
            Code::N9 => "N9",
            Code::N10 => "N10",
            Code::I1 => "I1",
            Code::I2 => "I2",
            Code::I3 => "I3",
            Code::M1 => "M1",
            Code::M2 => "M2",
            Code::M3 => "M3",
            Code::M4 => "M4",
            Code::M5 => "M5",
            Code::J1 => "J1",
            Code::J2 => "J2",
            Code::J3 => "J3",
            Code::J4 => "J4",
            Code::J5 => "J5",
            Code::J6 => "J6",
            Code::J7 => "J7",
            Code::J8 => "J8",
            Code::J9 => "J9",
            Code::J10 => "J10",
            Code::J11 => "J11",
            Code::J12 => "J12",
            Code::B1 => "B1",
            Code::B2 => "B2",
            Code::B3 => "B3",
            Code::B4 => "B4",
            Code::B5 => "B5",
            Code::F1 => "F1",
            Code::F2 => "F2",
            Code::F3 => "F3",
            Code::F4 => "F4",
            Code::F5 => "F5",
            Code::F6 => "F6",
            Code::F7 => "F7",
            Code::R1 => "R1",
            Code::R2 => "R2",
            Code::R3 => "R3",
            Code::R4 => "R4",
            Code::R5 => "R5",
            Code::P1 => "P1",
            Code::P2 => "P2",
            Code::P3 => "P3",
            Code::P4 => "P4",
            Code::E1 => "E1",
            Code::E2 => "E2",
            Code::E3 => "E3",
            Code::E4 => "E4",
            Code::E5 => "E5",
            Code::E6 => "E6",
            Code::H1 => "H1",
            Code::H2 => "H2",
            Code::H3 => "H3",
            Code::H4 => "H4",
            Code::H5 => "H5",
            Code::H6 => "H6",
            Code::H7 => "H7",
            Code::H8 => "H8",
            Code::H9 => "H9",
            Code::L1 => "L1",
            Code::L2 => "L2",
            Code::C1 => "C1",
            Code::C2 => "C2",
            Code::C3 => "C3",
            Code::C4 => "C4",
            Code::X1 => "X1",
            Code::Z1 => "Z1",
            Code::O1 => "O1",
            Code::O2 => "O2",
            Code::O3 => "O3",
            Code::O4 => "O4",
            Code::S1 => "S1",
            Code::S2 => "S2",
            Code::S3 => "S3",
            Code::K1 => "K1",
            Code::K2 => "K2",
            Code::K3 => "K3",
            Code::G1 => "G1",
            Code::G2 => "G2",
            Code::G3 => "G3",
            Code::G4 => "G4",
            Code::MEM => "MEM",
        }
    }
}
