//! The types of a report file, and the reporting periods that each may cover.
ghost use Rattle.std.specs.Prelude.{◌≡◌, ◌↔◌, IsTrue};
ghost use Rattle.pm_name.specs.FileName.{file_type, IsFileLength, IsFileSpan};

/// The type of a report file (TS 32.432; which type is written when is this project's own).
#[derive(Clone, Copy, Debug, PartialEq, Eq)]
pub enum FileKind {
    /// The file covers one granularity period.
    A,
    /// The file covers several granularity periods.
    C,
}

/// The end that lies furthest: 9999-12-31 23:59.
const LAST_END: u64 = 253402300740;

/// The minutes of a day.
pub(crate) const DAY_MINUTES: u64 = 1440;

/// The seconds of a day.
pub(crate) const DAY_SECONDS: u64 = 86400;

impl FileKind {
    ghost use Rattle.pm_name.specs.Kind.{type_of};

    /// The type of a file, by whether its reporting period is one granularity period.
    pub fn of_period(is_granularity_period: bool) -> FileKind
        ensures { type_of result ≡ file_type is_granularity_period }
    {
        if is_granularity_period {
            FileKind::A
        } else {
            FileKind::C
        }
    }

    /// Whether a file of this type may cover so many minutes.
    fn permits(self, minutes: u64) -> bool
        ensures { IsTrue result ↔ IsFileLength (type_of self) minutes }
    {
        match self {
            FileKind::A => matches!(minutes, 1 | 5 | 15 | 30 | 60),
            FileKind::C => { 2 <= minutes && minutes <= DAY_MINUTES && DAY_MINUTES % minutes == 0 }
        }
    }

    /// Whether a name of this type can say the reporting period from `begin` to `end`, in moments.
    pub fn can_span(self, begin: u64, end: u64) -> bool
        ensures { IsTrue result ↔ IsFileSpan (type_of self) begin end }
    {
        if end <= begin || LAST_END < end || begin % 60 != 0 || end % 60 != 0 {
            return false;
        }
        let minutes = (end - begin) / 60;
        let start = begin % DAY_SECONDS / 60;
        self.permits(minutes) && start % minutes == 0
    }
}
