//! Dates: the crate jiff says which of them exist.
#![tactic(auto)]

mod date;

pub use date::Date;
