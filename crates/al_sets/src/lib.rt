//! Sets of addresses and maps from addresses to values, in blocks of 512.
#![tactic(auto)]

mod bits;
mod blocks;
mod hints;
mod maps;
mod places;
mod rows;
mod sets;

pub use maps::AddrMap;
pub use sets::AddrSet;
