// Why a timetable may not be published.
use exam_model::ExamNo;
use exam_rules::Breach;
use std::alloc::AllocError;

/// Why a timetable may not be published, in the order of the checks.
#[derive(Clone, Copy, Debug, PartialEq, Eq)]
pub enum PublishFault {
    /// The smallest exam that has no place.
    Unplaced(ExamNo),
    /// The least breach of a hard rule: by rule, then by exam, then by the other exam.
    Broken(Breach),
    /// Out of memory.
    NoMemory,
}

impl From<AllocError> for PublishFault {
    ghost use Rattle.std.specs.Prelude.{◌≡◌};
    ghost use Rattle.exam_publish.specs.declared.fault.PublishFault.TheVariants.{NoMemory};

    ghost from_gives = { λ _ e. e ≡ NoMemory };

    fn from(_error: AllocError) -> PublishFault {
        PublishFault::NoMemory
    }
}
