//! What differs between two timetables of one session: moved exams, the candidates enrolled in them,
//! and breaches.
#![tactic(auto)]

mod breach_changes;
mod moved_candidates;
mod moved_exams;

pub use breach_changes::new_breaches;
pub use moved_candidates::candidates;
pub use moved_exams::{Move, moves};
