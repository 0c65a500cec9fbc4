//! The penalty of a timetable (ITC 2007, examination track).
#![tactic(auto)]

mod amounts;
mod candidate;
mod changes;
mod concerned;
mod conflict_sums;
mod cost_rows;
mod edit_fold;
mod edited_exams;
mod front;
mod laws;
mod mixed;
mod nights;
mod pair_costs;
mod pairs;
mod parts;
mod personal_parts;
mod places;
mod rescoring;
mod rows;
mod sat_exams;
mod sittings;
mod tallies;
mod touched;
mod track;
mod walk;

pub use candidate::personal;
pub use changes::difference;
pub use edit_fold::EditFold;
pub use front::{front_share, sizes_of};
pub use laws::{penalty_is_small, regrouping};
pub use mixed::{PlacedDuration, stays_of};
pub use pair_costs::{DayCost, NightCost, RowCost, SpreadCost};
pub use parts::Parts;
pub use personal_parts::PersonalParts;
pub use rescoring::rescore;
pub use track::score;
