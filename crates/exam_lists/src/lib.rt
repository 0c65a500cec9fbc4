//! Lemmas about lists, tests, options and results that speak of std's words only. They are in
//! `proofs/`, a page for each topic; there is no code.
#![tactic(auto)]
