//! Laws of the annotated loops of typed trees.
#![tactic(auto)]

mod laws;

pub use laws::loops_have_their_locals;
