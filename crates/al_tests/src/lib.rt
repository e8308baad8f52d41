//! Tests that cross crates.
#![tactic(auto)]

#[cfg(test)]
mod programs;
#[cfg(test)]
mod rows;
#[cfg(test)]
mod trees;
