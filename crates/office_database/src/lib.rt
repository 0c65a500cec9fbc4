//! The file of an office's database, opened with room in memory for a whole publication.
#![tactic(auto)]

mod opening;

pub use opening::open;
