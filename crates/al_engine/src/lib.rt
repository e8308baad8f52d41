//! Whole runs of lowered code, plain and in rounds, for any number of threads.
#![tactic(auto)]

mod counts;
mod entered;
mod executions;
mod job;
mod rounds;
mod runs;
mod start;
mod world;

pub use al_round::{FreeGate, Gate};
pub use runs::run;
