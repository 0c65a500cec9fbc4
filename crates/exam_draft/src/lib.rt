//! Drafts of a timetable: each edit is judged by the hard rules and scored at once.
#![tactic(auto)]

mod draft;
mod edit;
mod editing;
mod fault;
mod judging;

pub use draft::Draft;
pub use edit::Edit;
pub use fault::EditFault;
pub use judging::judge;
