// A student with one of their exams.
use exam_terms::{ExamNo, StudentNo};

/// A student's enrolment in an exam; ordered by student, and then by exam.
#[derive(Clone, Copy, Debug, PartialEq, Eq, PartialOrd, Ord)]
pub struct Sitter {
    pub student: StudentNo,
    pub exam: ExamNo,
}
