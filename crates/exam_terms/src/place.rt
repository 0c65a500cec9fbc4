// Places of exams.
use crate::numbers::{PeriodNo, RoomNo};

/// The period and room of an exam. Several exams may have the same place.
#[derive(Clone, Copy, Debug, PartialEq, Eq)]
pub struct Place {
    pub period: PeriodNo,
    pub room: RoomNo,
}
