//! One round of an annotated loop: its chunks run on threads, all on the memory at the round's start, are judged in
//! their order beside the lanes, and those that commit are laid over the store one after another.
#![tactic(auto)]

mod commits;
mod piece;
mod report;
mod rounds;
mod runner;

pub use al_workers::{FreeGate, Gate};
pub use report::RoundReport;
pub use rounds::round;
