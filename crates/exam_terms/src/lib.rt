//! The terms that all crates use: the numbers of exams, periods, rooms, students and departments,
//! places, limits, and texts without leading and trailing blanks.
#![tactic(auto)]

pub mod limits;
mod numbers;
mod place;
mod texts;

pub use numbers::{DeptNo, ExamNo, PeriodNo, RoomNo, StudentNo};
pub use place::Place;
pub use texts::{are_digits, trim_end, trim_start, trimmed_text};
