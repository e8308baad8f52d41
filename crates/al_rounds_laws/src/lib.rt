//! Laws of rounds: what chunks that run at the same time come to is what they come to one after another. A law stands
//! on a function that does nothing.
#![tactic(auto)]

pub mod order;
pub mod serial;
pub mod writes;
