// Why an edit is refused.
use exam_rules::Breach;
use std::alloc::AllocError;

/// Why an edit is refused. If several reasons apply, the first is named; out of memory may be named
/// instead of any other.
#[derive(Clone, Copy, Debug, PartialEq, Eq)]
pub enum EditFault {
    /// An exam, a period or a room doesn't exist.
    NoSuch,
    /// The exam to be placed already has a place.
    AlreadyPlaced,
    /// An exam to be moved, swapped or cleared has no place.
    NotPlaced,
    /// An exam would be swapped with itself.
    SameExam,
    /// After the edit its exams would break rules; this is the least such breach.
    Broken(Breach),
    /// Out of memory.
    NoMemory,
}

impl From<AllocError> for EditFault {
    ghost use Rattle.std.specs.Prelude.{◌≡◌};
    ghost use Rattle.exam_draft.specs.declared.fault.EditFault.TheVariants.{NoMemory};

    ghost from_gives = { λ _ e. e ≡ NoMemory };

    fn from(_error: AllocError) -> EditFault {
        EditFault::NoMemory
    }
}
