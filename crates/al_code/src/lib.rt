//! Lowered code: instructions for a machine with a stack, what they mean, what it is that code stands for a typed
//! tree, and which code is valid.
#![tactic(auto)]

mod checks;
mod instructions;
mod lowered;

pub use checks::valid;
pub use instructions::Instr;
pub use lowered::{Body, Code, Entry};
