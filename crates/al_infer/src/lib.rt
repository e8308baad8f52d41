//! The search for annotations: what tests show of the candidates for a loop, and which is the best.
#![tactic(auto)]

mod law;
mod outcomes;
mod search;
mod tables;

pub use law::tables_say;
pub use outcomes::{Outcome, Trial};
pub use search::infer;
pub use tables::{Found, Table, Why};
