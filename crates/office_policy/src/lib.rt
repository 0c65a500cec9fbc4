//! The office's policy: the callers, the commands, and which caller may run which command.
#![tactic(auto)]

mod callers;
mod command;
mod numbers;
mod policy;

pub use callers::Caller;
pub use command::{Body, Command};
pub use numbers::read_number;
pub use policy::{Denial, Kind, allowed};
