//! Threads that work on all lanes of a board.
#![tactic(auto)]

mod gate;
mod tree;

pub use gate::{FreeGate, Gate};
pub use tree::work_all;
