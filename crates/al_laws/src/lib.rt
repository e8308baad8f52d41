//! Laws over the definitions of what a program means. A law stands on a function that does nothing.
#![tactic(auto)]

pub mod bounds;
pub mod budgets;
pub mod chunks;
pub mod committing;
pub mod iterations;
pub mod loops;
pub mod names;
pub mod records;
pub mod reductions;
pub mod rounds;
pub mod sets;
