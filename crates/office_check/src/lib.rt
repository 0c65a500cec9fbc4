//! The checker without the rest: does tasks on a solution from two readers, as judging it or listing
//! the places of an exam, and compares two solutions, with no database and no command line.
#![tactic(auto)]

mod checking;
mod comparing;
mod explaining;
mod json_report;
mod judging;
mod listing;
mod names;
mod reporting;
mod student;

pub use checking::{CheckFault, SolutionTask, task_run};
pub use comparing::{CompareFault, compare_run};
pub use explaining::Why;
pub use json_report::JsonReport;
pub use judging::{Judge, LineForm, Verdict};
pub use listing::{Places, PlacesAnswer};
pub use names::FileName;
pub use reporting::{Report, check_run};
pub use student::WhyFor;
