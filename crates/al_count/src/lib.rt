//! Counting in lists of numbers and over lists of records: how often, added up, below.
//!
//! The words stand in `specs/Counts.antt`, and the lemmas on them in `proofs/Totals.antt`. No code runs.
#![tactic(auto)]
