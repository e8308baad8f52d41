//! Runs of an annotated loop's iterations by lowered code: a chunk of them on a private copy of a store's memory, or
//! all of them on the store itself.
#![tactic(auto)]

mod chunk;
mod env;
mod iteration;
mod iterations;
mod plain;

pub use chunk::run_chunk;
pub use env::{LoopEnv, Run};
pub use iteration::run_iteration;
pub use iterations::{LoopView, run_iterations};
pub use plain::{PlainRun, run_plain_loop};
