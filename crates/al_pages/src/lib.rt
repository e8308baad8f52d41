//! A store that finds objects by the numbers that name them.
#![tactic(auto)]

mod executions;
mod iterations;
mod objects;
mod page_store;
mod slots;

pub use page_store::PageStore;
