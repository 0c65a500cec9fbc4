//! Offices over files that stop, and two offices that a candidate asks.
#![tactic(auto)]

#[cfg(test)]
mod files;
#[cfg(test)]
mod given;
#[cfg(test)]
mod showing;
#[cfg(test)]
mod stopping;
#[cfg(test)]
mod two_offices;
