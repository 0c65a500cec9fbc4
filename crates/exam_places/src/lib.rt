//! Where an exam can go: what the edit that puts it at a place answers, for every place.
#![tactic(auto)]

mod breaches;
mod firsts;
mod listing;
mod period_table;
mod place_row;
mod place_table;
mod shared;
mod shares;
mod tables;
mod unplaced_exam;

pub use listing::{places, places_if_scored};
pub use place_row::{PlaceAnswer, PlaceRow};
