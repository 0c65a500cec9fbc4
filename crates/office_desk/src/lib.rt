//! The office's desk: a command is judged by the policy, then by its body, then by the state.
#![tactic(auto)]

mod answer;
mod candidates;
mod changing;
mod desk;
mod judging;
mod publications;
mod showing;

pub use answer::Answer;
pub use desk::Desk;
pub use office_model::{
    quiet_run, quiet_step, reply_by_view, same_changes_same_view, same_view_same_answer,
    shown_changes_nothing,
};
pub use office_reports::{penalty_report, rooms_report, violation_report};
pub use office_store::{Edit, Loaded, Office, Refusal, StoreFault};
