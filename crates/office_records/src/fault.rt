// Why rows don't represent records.
use office_files::{FaultKind, FileFault};
use office_model::StoreFault;
use std::alloc::AllocError;

/// Why rows don't represent records.
#[derive(Clone, Copy, Debug, PartialEq, Eq)]
pub enum RecordFault {
    /// Out of memory.
    NoMemory,
    /// No records have these rows.
    BadRows,
}

impl From<AllocError> for RecordFault {
    ghost use Rattle.std.specs.Prelude.{◌≡◌};
    ghost use Rattle.office_records.specs.declared.fault.RecordFault.TheVariants.{NoMemory};

    ghost from_gives = { λ _ e. e ≡ NoMemory };

    fn from(_error: AllocError) -> RecordFault {
        RecordFault::NoMemory
    }
}

impl From<FileFault> for RecordFault {
    ghost use Rattle.std.specs.Prelude.{◌≡◌};
    ghost use Rattle.office_records.specs.Faults.{text_fault};

    ghost from_gives = { λ fault e. e ≡ text_fault fault.what };

    fn from(fault: FileFault) -> RecordFault {
        match fault.what {
            FaultKind::NoMemory => RecordFault::NoMemory,
            _ => RecordFault::BadRows,
        }
    }
}

impl From<RecordFault> for StoreFault {
    ghost use Rattle.std.specs.Prelude.{◌≡◌};
    ghost use Rattle.office_records.specs.Faults.{store_fault};

    ghost from_gives = { λ fault e. e ≡ store_fault fault };

    fn from(fault: RecordFault) -> StoreFault {
        match fault {
            RecordFault::NoMemory => StoreFault::Store,
            RecordFault::BadRows => StoreFault::BadSchema,
        }
    }
}
