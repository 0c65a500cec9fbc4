//! The reports on a timetable as texts: its penalty, its breaches, the use of its rooms, its seats,
//! and the places of an exam.
#![tactic(auto)]

mod place_list;
mod reports;
mod rooms;
mod seat_list;
mod slots;

pub use place_list::places_report;
pub use reports::{penalty_report, rule_name, violation_report};
pub use rooms::rooms_report;
pub use seat_list::seats_report;
