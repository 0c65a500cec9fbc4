//! Texts that are written whole, or up to a front of them.
#![tactic(auto)]

mod writing;

pub use writing::write_text;
