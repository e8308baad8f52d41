//! The search for annotations of a program's loop, each trial a run of the program.
#![tactic(auto)]

mod choices;
mod search;
mod trials;

pub use choices::{no_choices, with_line};
pub use search::searched;
