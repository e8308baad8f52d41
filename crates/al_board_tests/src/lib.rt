//! Tests of boards that threads work on.
#![tactic(auto)]

#[cfg(test)]
mod boards;
#[cfg(test)]
mod counting;
mod held;
#[cfg(test)]
mod jobs;
#[cfg(test)]
mod marks;
#[cfg(test)]
mod tally;
#[cfg(test)]
mod workers;

pub use held::{Held, MANY};
