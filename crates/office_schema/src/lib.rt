//! Whether a schema of SQLite has the tables that a program declares.
#![tactic(auto)]

mod parts;
mod whole;

pub use parts::{Declared, TableKey, is_pair_index, is_seat_index};
pub use whole::are_tables;
