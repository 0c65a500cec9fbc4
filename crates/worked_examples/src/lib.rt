//! Worked examples of the libraries that no command shows, with values from outside that no contract
//! states.
#![tactic(auto)]

#[cfg(test)]
mod checks;
#[cfg(test)]
mod conflicts;
#[cfg(test)]
mod drafts;
#[cfg(test)]
mod files;
#[cfg(test)]
mod given;
#[cfg(test)]
mod model;
#[cfg(test)]
mod rows;
#[cfg(test)]
mod score;
#[cfg(test)]
mod unplaced;
