//! Why a timetable's penalty is what it is: each summand of each part, with what it counts.
#![tactic(auto)]

mod durations;
mod front_reasons;
mod laws;
mod mixed;
mod pair_reasons;
mod pairs;
mod place_reasons;
mod reasons;
mod students;

pub use front_reasons::front_reason;
pub use laws::{own_reasons_add_up, reasons_add_up};
pub use mixed::mixed_reasons;
pub use pair_reasons::pair_reason;
pub use pairs::costly_pairs;
pub use place_reasons::{period_reason, room_reason};
pub use reasons::{ExamReason, MixedReason, PairKind, PairReason, PlaceReason};
pub use students::own_enrolments;
