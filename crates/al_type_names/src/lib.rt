//! What the names and types of a program mean: what it defines, which names are in scope, and where a type may stand.
#![tactic(auto)]

pub mod fault;
pub mod known;
pub mod names;
pub mod scope;
pub mod table;
pub mod types;
