//! Annotated loops of programs, in chunks and plain, beside the plain interpreter.
#![tactic(auto)]

mod beside;
mod chunks;
mod made;
mod memories;
mod places;
mod stores;
mod walk;

pub use beside::addresses;
pub use chunks::check_loops;
pub use made::check_made;
pub use places::holds_the_same;
pub use walk::{AtLoop, Spot, info_of, plain_execution, to_loop};
