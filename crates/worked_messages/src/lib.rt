//! Worked examples of the messages and of the policy, by subject, with values from outside.
#![tactic(auto)]

#[cfg(test)]
mod given;
#[cfg(test)]
mod policy;
#[cfg(test)]
mod requests;
#[cfg(test)]
mod serving;
mod tally;

pub use tally::{Tally, serve_tally};
