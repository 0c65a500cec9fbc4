//! The office over its tables: one SQLite file that represents an examination session.
#![tactic(auto)]

mod adopting;
mod asking;
mod candidate_share;
mod drafting;
mod editing;
mod enrolling;
mod fault;
mod folding;
mod kept_bytes;
mod laws;
mod loading;
mod memory;
mod new_batch;
mod new_publication;
mod office;
mod opening;
mod owning;
mod publications;
mod publishing;
mod putting;
mod reading;
mod rescoring;
mod rewritten_places;
mod share_rows;
mod shutting;
mod transactions;
mod viewing;

pub use exam_draft::Edit;
pub use laws::{awake_store_leaves_its_tables, crash_leaves_an_office, stored_shares_add_up};
pub use office::Office;
pub use office_model::{CandidateView, Counts, Loaded, Published, Refusal, StoreFault};
pub use opening::is_of_version_1;
