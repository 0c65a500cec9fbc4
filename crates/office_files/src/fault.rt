//! The faults of a file, and their lines.

use std::alloc::{AllocError, AllocFailed};

/// The kind of a fault of a line, or of a file as a whole.
#[derive(Clone, Copy, Debug, PartialEq, Eq)]
pub enum FaultKind {
    /// The file has more bytes than its limit.
    TooLong = 1,
    /// The header of the next section is not of its form, or there is another line or the end of
    /// the file instead.
    MissingSection = 2,
    /// There are more or fewer lines than a header or an instance says.
    CountMismatch = 3,
    /// A field is not a number: one or more digits. An empty or missing field is not one either.
    BadNumber = 4,
    /// A field is not `DD:MM:YYYY`, or the date doesn't exist in the years 1 to 9999.
    BadDate = 5,
    /// A field is not `HH:MM:SS`, or there is no such time of day.
    BadTime = 6,
    /// A field is none of the words that are allowed there.
    BadWord = 7,
    /// A number is outside the range that is allowed there.
    OutOfRange = 8,
    /// A second line has a value that is allowed only once.
    Repeated = 9,
    /// There is a field or a text at a place that must be empty.
    StrayText = 10,
    /// The first record does not name the columns.
    BadHeader = 11,
    /// A part is missing for writing, such as the place of an exam in a timetable.
    Incomplete = 12,
    /// Out of memory; the file may be valid.
    NoMemory = 13,
}

/// The fault of a file.
#[derive(Clone, Copy, Debug, PartialEq, Eq)]
pub struct FileFault {
    /// The faulty line, from 1, or 0 if the fault is not that of one line.
    pub line: u32,
    /// The kind of the fault.
    pub what: FaultKind,
}

impl FileFault {
    ghost use Rattle.std.specs.Prelude.{◌≡◌, ◌≢◌};
    ghost use Rattle.office_files.specs.Faults.{HasNoLine};

    /// Out of memory.
    pub const NO_MEMORY: FileFault = FileFault {
        line: 0,
        what: FaultKind::NoMemory,
    };

    /// The file has more bytes than its limit.
    pub const TOO_LONG: FileFault = FileFault {
        line: 0,
        what: FaultKind::TooLong,
    };

    /// Returns the fault of a line; out of memory is the fault of no line.
    pub fn at(line: u32, what: FaultKind) -> FileFault
        ensures kind { result.what ≡ what }
        ensures place { what ≢ FaultKind.NoMemory → result ≡ record { line = line; what = what } }
        ensures memory { HasNoLine result }
    {
        match what {
            FaultKind::NoMemory => FileFault::NO_MEMORY,
            _ => FileFault { line, what },
        }
    }
}

impl From<AllocError> for FileFault {
    ghost use Rattle.std.specs.Prelude.{◌≡◌};
    ghost use Rattle.office_files.specs.declared.fault.FaultKind.TheVariants.{NoMemory};

    ghost from_gives = { λ _ e. (e.line ≡ 0) × (e.what ≡ NoMemory) };

    fn from(_error: AllocError) -> FileFault {
        FileFault::NO_MEMORY
    }
}

impl<T: Drop> From<AllocFailed<T>> for FileFault {
    ghost use Rattle.std.specs.Prelude.{◌≡◌};
    ghost use Rattle.office_files.specs.declared.fault.FaultKind.TheVariants.{NoMemory};

    ghost from_gives = { λ _ e. (e.line ≡ 0) × (e.what ≡ NoMemory) };

    fn from(_error: AllocFailed<T>) -> FileFault {
        FileFault::NO_MEMORY
    }
}
