//! The words of a command line: what they ask for, or the first fault in them.
#![tactic(auto)]

mod command;
mod option;
mod range;
mod read;
mod verb;
mod walk;

pub use command::{Command, Job, WordFault};
pub use read::read_words;
