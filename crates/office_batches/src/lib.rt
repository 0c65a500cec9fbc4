//! Batches of changes of enrolments as texts: comma-separated values.
#![tactic(auto)]

mod batch_reader;
mod change_reader;
mod laws;

pub use batch_reader::read_batch;
pub use laws::{batch_readings_agree, one_batch};
