//! The records of an office, and the rows of its tables that represent them.
#![tactic(auto)]

mod batches;
mod drafts;
mod enrolments;
mod fault;
mod owners;
mod part_shares;
mod placed_seats;
mod publication;
mod published;
mod records;
mod retimed;
mod seats;
mod session;
mod shares;
mod student_shares;
mod timetable;

pub use drafts::{Draft, Drafts, NUMBERS, draft_row, no_drafts};
pub use fault::RecordFault;
pub use part_shares::part_share_rows;
pub use publication::placement_rows;
pub use records::{Remembered, remembered_of};
pub use retimed::retimed_students;
pub use seats::{own_seats, seats_beside};
pub use session::text_of;
pub use shares::shares_of;
pub use student_shares::student_share_rows;
pub use timetable::timetable_of;
