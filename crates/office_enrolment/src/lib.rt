//! The effect of a batch of changes on enrolments: the enrolments after it, the counts of its
//! lines, and the lines that acted.
#![tactic(auto)]

mod batch;
mod laws;

pub use batch::{AfterBatch, after_batch};
pub use laws::{
    batch_leaves_an_office, enrolled_again, lines_are_counted, newly_enrolled_by_lines,
    rows_follow_lines, step_leaves_an_office,
};
