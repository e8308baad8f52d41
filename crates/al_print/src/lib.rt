//! The canonical text of a source tree.
#![tactic(auto)]

mod expressions;
mod program;
mod statements;
mod tables;
mod types;
mod writer;

pub use program::print_program;
