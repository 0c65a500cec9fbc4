// A place for an exam, and the answer of the edit that puts the exam there.
use exam_model::{PeriodNo, RoomNo};
use exam_rules::Breach;

/// What an edit answers: the total penalty after it, or the least breach that refuses it.
pub type PlaceAnswer = Result<u64, Breach>;

/// A place, and the answer of the edit that puts an exam there.
#[derive(Clone, Copy, Debug, PartialEq, Eq)]
pub struct PlaceRow {
    pub period: PeriodNo,
    pub room: RoomNo,
    pub answer: PlaceAnswer,
}
