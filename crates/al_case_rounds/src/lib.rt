//! Rounds of annotated loops and whole runs by the engine, beside the plain interpreter.
#![tactic(auto)]

mod alike;
mod choices;
mod engine;
mod rounds;
mod same;

pub use engine::check_reports;
pub use rounds::{check_first_round, check_rounds};
