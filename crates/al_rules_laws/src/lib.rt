//! Laws over the static rules. A law stands on a function that does nothing.
#![tactic(auto)]

pub mod formed;
pub mod layouts;
pub mod reductions;
pub mod typing;
