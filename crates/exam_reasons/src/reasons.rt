// The summands of a penalty.
use exam_model::{ExamNo, PeriodNo, RoomNo};

/// The parts of a penalty that count pairs of exams.
#[derive(Clone, Copy, Debug, PartialEq, Eq)]
pub enum PairKind {
    Row,
    Day,
    Spread,
    Night,
}

/// What two exams cost for the students who sit both.
#[derive(Clone, Copy)]
pub struct PairReason {
    /// The exam with the smaller number.
    pub exam: ExamNo,
    pub other: ExamNo,
    /// How many students sit both.
    pub students: u32,
    pub points: u64,
}

/// What the different durations in a room and period cost.
#[derive(Clone, Copy)]
pub struct MixedReason {
    pub room: RoomNo,
    pub period: PeriodNo,
    /// How many different durations there are.
    pub durations: u64,
    pub points: u64,
}

/// What an exam adds to the front load.
#[derive(Clone, Copy)]
pub struct ExamReason {
    pub exam: ExamNo,
    /// How many students sit it.
    pub students: u32,
    pub points: u64,
}

/// What the exams of a period, or those of a room, add to its penalty.
#[derive(Clone, Copy)]
pub struct PlaceReason {
    /// The number of the period or the room.
    pub number: u32,
    /// How many exams it has.
    pub exams: u64,
    pub points: u64,
}
