//! The parser of what nests no statement: assignments, calls, declarations, annotations and the heads of loops.
#![tactic(auto)]

mod annotations;
mod declarations;
mod heads;
mod simple;

pub use annotations::{end_note, loop_note};
pub use declarations::{begins_base, declaration};
pub use heads::{Parts, head, maybe};
pub use simple::{parenthesized, simple_statement};
