//! What C source is: its tokens and its grammar, as definitions and as laws about them, with the tables that code
//! reads.
#![tactic(auto)]

mod laws;
mod operators;
mod place;
mod token_laws;
mod words;

pub use laws::one_program;
pub use operators::{
    Joint, LEVELS, NoteWord, Prefix, apply, infix_of, join, note_word_of, prefix_of, step_of,
    update_of,
};
pub use place::{Next, Place, Spot};
pub use token_laws::{
    longest_mark, no_fault_where_spelled, one_spelling, reserved_words, spells_or_faults,
    tokens_are_slices,
};
pub use words::{KEYS, MARKS, key_text, mark_text};
