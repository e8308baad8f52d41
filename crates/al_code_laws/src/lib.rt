//! Laws of lowered code: what is planned for a typed tree, and that code which shows it stands for the tree.
#![tactic(auto)]

pub mod laws;
mod plan;

pub use plan::{Op, Planned};
