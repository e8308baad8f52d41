//! Laying what a chunk did over a store.
#![tactic(auto)]

mod commits;

pub use commits::commit;
