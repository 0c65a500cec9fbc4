//! The definition of the office: its state, the effect of each command, and what a candidate sees.
//! It has no database.
#![tactic(auto)]

mod counts;
mod fault;
mod laws;
mod views;

pub use counts::{Counts, Loaded, Published};
pub use fault::{Refusal, StoreFault, kind_number};
pub use laws::{
    quiet_run, quiet_step, reply_by_view, same_changes_same_view, same_view_same_answer,
    shown_changes_nothing,
};
pub use views::{CandidateView, ShownPlace, ViewRow, view_rows};
