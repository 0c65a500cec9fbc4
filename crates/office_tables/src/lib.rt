//! The twelve tables of an office's SQLite file: a type for each statement that changes them, and
//! one for each query.
#![tactic(auto)]

mod adopting;
mod altering;
mod amounts;
mod creation;
mod joined_share;
mod listing;
mod looking;
mod migrating;
mod nights;
mod query;
mod records;
mod running;
mod streaming;
mod table;
pub mod tables;
mod texts;
mod version;

pub use adopting::{AdoptFault, adopt_tables};
pub use altering::{Alteration, Both, Each, transact};
pub use creation::{create_tables, is_bare};
pub use looking::check_open;
pub use migrating::migrate;
pub use query::Query;
pub use table::{Insert, InsertAll};
pub use version::Version;
