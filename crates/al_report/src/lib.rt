//! The texts that the program writes of runs and faults.
#![tactic(auto)]

mod builder;
mod faults;
mod lines;
mod places;
mod tables;
mod traces;

pub use faults::{
    input_cause_text, input_text, layout_text, lex_text, lower_text, note_text, parse_text,
    refusal_text, type_text,
};
pub use places::bad_text;
pub use tables::{no_loop_text, table_text};
pub use traces::{totals_text, trace_text, trap_text};
