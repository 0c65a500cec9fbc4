// A change of enrolments.
use exam_terms::{ExamNo, StudentNo};

/// A student to add to an exam, or to remove from it.
#[derive(Clone, Copy, Debug, PartialEq, Eq)]
pub struct Change {
    pub student: StudentNo,
    pub exam: ExamNo,
    /// Whether the student is added.
    pub add: bool,
}
