//! Runs of the whole program over files, a database and clients in memory.
#![tactic(auto)]

#[cfg(test)]
mod clauses;
#[cfg(test)]
mod desktop;
#[cfg(test)]
mod memory;
#[cfg(test)]
mod runs;
#[cfg(test)]
mod screen;
#[cfg(test)]
mod visitors;
