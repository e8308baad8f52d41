//! The entries of the annotated loops of a typed program, or the first fault; and what the body of a loop does with
//! variables and functions.
#![tactic(auto)]

mod breaks;
mod entries;
mod forms;
mod mentions;
mod reach;
mod updates;
mod uses;
mod variables;

pub use al_rules::{NoteFault, NoteKind};
pub use entries::notes;
pub use forms::is_integer;
pub use reach::reached;
pub use updates::has_update;
pub use uses::{Program, Use, program_uses, uses_of};
pub use variables::{is_counter_or_bound, is_misused, is_same, is_taken};
