//! The parts of a publication: seats, shares of the penalty, and the candidates whose seats
//! changed.
#![tactic(auto)]

mod comparison;
mod durations;
mod entrants;
mod exam_shares;
mod fault;
mod held;
mod laws;
mod permission;
mod place_shares;
mod seat_row;
mod seating;
mod share_lists;
mod sharing;
mod student_shares;
mod sums;

pub use comparison::{changed, in_order, is_before};
pub use fault::PublishFault;
pub use laws::{
    numbered_at_first, seated_as_enrolled, seats_are_rows, shares_add_up, shares_are_small,
    unchanged_share_stays,
};
pub use permission::permit;
pub use seat_row::SeatRow;
pub use seating::seats;
pub use share_lists::{RoomShare, Shares};
pub use sharing::{numbers_identify, shares, shares_among};
