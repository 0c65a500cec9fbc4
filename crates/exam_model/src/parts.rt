// Exams, periods, rooms and weights (ITC 2007, input format).
use exam_calendar::Date;

/// An exam: its duration, 0 to 1,440 minutes.
#[derive(Clone, Copy, Debug, PartialEq, Eq)]
pub struct Exam {
    pub minutes: u32,
}

/// A period: its start, its length (0 to 1,440 minutes), and what an exam in it costs (0 to
/// 100,000). Its date exists. Periods needn't be in chronological order.
#[derive(Clone, Copy, Debug, PartialEq, Eq)]
pub struct Period {
    pub date: Date,
    pub hour: u8,
    pub minute: u8,
    pub second: u8,
    pub length: u32,
    pub penalty: u32,
}

/// A room: how many students it holds, and what an exam in it costs; each 0 to 100,000.
#[derive(Clone, Copy, Debug, PartialEq, Eq)]
pub struct Room {
    pub capacity: u32,
    pub penalty: u32,
}

/// The weights of the institution (ITC 2007, institutional model index); each 0 to 100,000.
#[derive(Clone, Copy, Debug, PartialEq, Eq)]
pub struct Weights {
    /// For two exams in a row.
    pub row: u32,
    /// For two exams in a day.
    pub day: u32,
    /// The number of periods over which a student's exams are to be spread.
    pub spread: u32,
    /// For each further duration in a room and period.
    pub mixed: u32,
    /// How many of the largest exams are to come early.
    pub front_exams: u32,
    /// How many of the last periods are late.
    pub front_periods: u32,
    /// For each of the largest exams in a late period.
    pub front: u32,
    /// For two exams in adjacent periods whose dates are one day apart.
    pub night: u32,
}
