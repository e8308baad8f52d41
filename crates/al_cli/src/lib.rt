//! The command line: what words ask for, what is read, and what is written.
#![tactic(auto)]

mod entry;
mod lines;
mod reading;
mod runs;
mod serving;
mod top_call;

pub use al_engine::{FreeGate, Gate};
pub use al_words::{Command, Job, WordFault, read_words};
pub use entry::{NoWords, program, words};
pub use top_call::alter;
