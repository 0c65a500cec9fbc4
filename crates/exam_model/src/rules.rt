// Hard rules on the periods and rooms of single exams (ITC 2007, hard constraints).
use exam_terms::ExamNo;

/// A rule on the periods of two exams. One that names an exam twice is never broken.
#[derive(Clone, Copy, Debug, PartialEq, Eq)]
pub enum PeriodRule {
    /// The first exam takes place after the second.
    After(ExamNo, ExamNo),
    /// Both take place in one period, unless they share a student.
    Coincidence(ExamNo, ExamNo),
    /// They take place in different periods.
    Exclusion(ExamNo, ExamNo),
}

/// An exam that must have its room to itself.
#[derive(Clone, Copy, Debug, PartialEq, Eq)]
pub struct RoomRule(pub ExamNo);
