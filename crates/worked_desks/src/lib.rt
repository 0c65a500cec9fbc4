//! Clients of a desk in memory, one after another.
#![tactic(auto)]

#[cfg(test)]
mod clients;
#[cfg(test)]
mod desk;
#[cfg(test)]
mod sides;
