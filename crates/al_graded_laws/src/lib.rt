//! Laws of the values that a program meets: instances of a second abstraction theorem, whose relation also tells what
//! is known of an answer. A law stands on a function that does nothing.
#![tactic(auto)]

pub mod runs;
