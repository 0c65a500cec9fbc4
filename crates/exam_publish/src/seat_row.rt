// One candidate's seat in one exam.
use exam_model::{ExamNo, PeriodNo, RoomNo, StudentNo};

/// A candidate's seat in an exam; seats of a room are numbered from 1 in each period.
#[derive(Clone, Copy, Debug, PartialEq, Eq)]
pub struct SeatRow {
    pub student: StudentNo,
    pub exam: ExamNo,
    pub period: PeriodNo,
    pub room: RoomNo,
    pub seat: u32,
}
