//! The values of an examination session: an instance, enrolments and a timetable.
#![tactic(auto)]

mod change;
mod conflicts;
mod enrolments;
mod fault;
mod instance;
mod laws;
mod limits;
mod links;
mod pair_cost;
mod parts;
mod roll;
mod rules;
mod sitter;
mod timetable;

pub use change::Change;
pub use conflicts::Conflict;
pub use enrolments::Enrolments;
pub use exam_calendar::Date;
pub use exam_terms::{DeptNo, ExamNo, PeriodNo, Place, RoomNo, StudentNo};
pub use fault::ModelFault;
pub use instance::Instance;
pub use laws::{determined_by_pairs, others_stay, pairs_in_order};
pub use pair_cost::PairCost;
pub use parts::{Exam, Period, Room, Weights};
pub use rules::{PeriodRule, RoomRule};
pub use sitter::Sitter;
pub use timetable::{NO_PERIOD, Timetable};
