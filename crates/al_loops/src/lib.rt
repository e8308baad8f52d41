//! The annotated loops of a typed program: the entry of each, or the first fault, and the choices that are tried for
//! one.
#![tactic(auto)]

mod choices;
mod reductions;

pub use al_loop_notes::{NoteFault, NoteKind, notes};
pub use choices::candidates;
