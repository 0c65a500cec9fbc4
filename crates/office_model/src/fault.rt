// Why a command is refused.
ghost use Rattle.std.specs.Prelude.{◌≡◌, ◌≢◌};
ghost use Rattle.office_model.specs.Numbers.{kind_number, store_number};

use exam_draft::EditFault;
use exam_publish::PublishFault;
use office_files::{FaultKind, FileFault};
use std::alloc::AllocError;

/// Why a file, an edit or a publication is refused; never out of memory, which is
/// [`StoreFault::Store`].
#[derive(Clone, Copy, Debug, PartialEq, Eq)]
pub enum Refusal {
    /// An edit is not possible, or an exam does not exist.
    Edit(EditFault),
    /// A timetable may not be published.
    Publish(PublishFault),
    /// A file is faulty.
    File(FileFault),
}

/// Why a command is refused, in the order of the printed numbers.
#[derive(Clone, Copy, Debug, PartialEq, Eq)]
pub enum StoreFault {
    /// There is an instance already.
    Loaded,
    /// There is no instance yet.
    NotLoaded,
    /// The draft doesn't exist, or the number is not 1 to 8.
    NoDraft,
    /// The draft exists already.
    DraftTaken,
    /// The number of the batch is kept with other bytes.
    BatchDiffers,
    /// There would be more pairs or batches than the limit.
    TooMany,
    /// A file, an edit or a publication was refused.
    Refused(Refusal),
    /// A statement failed, or memory ran out; nothing has changed.
    Store,
    /// The tables are not those of an office, or their contents are not valid.
    BadSchema,
}

impl From<AllocError> for StoreFault {
    ghost use Rattle.std.specs.Prelude.{◌≡◌};
    ghost use Rattle.office_model.specs.declared.fault.StoreFault.TheVariants.{Store};

    ghost from_gives = { λ _ e. e ≡ Store };

    fn from(_error: AllocError) -> StoreFault {
        StoreFault::Store
    }
}

impl StoreFault {
    /// Returns the refusal of a file; out of memory is not a refusal.
    pub fn of_file(fault: FileFault) -> StoreFault
        ensures memory { fault.what ≡ FaultKind.NoMemory → result ≡ StoreFault.Store }
        ensures refused { fault.what ≢ FaultKind.NoMemory
            → result ≡ StoreFault.Refused (Refusal.File fault) }
    {
        match fault.what {
            FaultKind::NoMemory => StoreFault::Store,
            _ => StoreFault::Refused(Refusal::File(fault)),
        }
    }

    /// Returns the refusal of an edit; out of memory is not a refusal.
    pub fn of_edit(fault: EditFault) -> StoreFault
        ensures memory { fault ≡ EditFault.NoMemory → result ≡ StoreFault.Store }
        ensures refused { fault ≢ EditFault.NoMemory
            → result ≡ StoreFault.Refused (Refusal.Edit fault) }
    {
        match fault {
            EditFault::NoMemory => StoreFault::Store,
            _ => StoreFault::Refused(Refusal::Edit(fault)),
        }
    }

    /// Returns the refusal of a publication; out of memory is not a refusal.
    pub fn of_publication(fault: PublishFault) -> StoreFault
        ensures memory { fault ≡ PublishFault.NoMemory → result ≡ StoreFault.Store }
        ensures refused { fault ≢ PublishFault.NoMemory
            → result ≡ StoreFault.Refused (Refusal.Publish fault) }
    {
        match fault {
            PublishFault::NoMemory => StoreFault::Store,
            _ => StoreFault::Refused(Refusal::Publish(fault)),
        }
    }

    /// Returns its printed number.
    pub fn number(self) -> u8
        ensures { result ≡ store_number self }
    {
        match self {
            StoreFault::Loaded => 1,
            StoreFault::NotLoaded => 2,
            StoreFault::NoDraft => 3,
            StoreFault::DraftTaken => 4,
            StoreFault::BatchDiffers => 5,
            StoreFault::TooMany => 6,
            StoreFault::Refused(_) => 7,
            StoreFault::Store => 8,
            StoreFault::BadSchema => 9,
        }
    }
}

/// Returns the printed number of a file's fault.
pub fn kind_number(what: FaultKind) -> u8
    ensures { result ≡ kind_number what }
{
    what as u8
}
