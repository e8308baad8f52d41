//! Judging the chunks of a round, one after another.
#![tactic(auto)]

mod clashes;
mod judge;

pub use clashes::{clash, clashes_with};
pub use judge::Judge;
