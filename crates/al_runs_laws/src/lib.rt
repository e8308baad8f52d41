//! Laws of whole runs: a program whose annotated loops run in rounds shows what it shows where its chunks run one after
//! another. A law stands on a function that does nothing.
#![tactic(auto)]

pub mod numbers;
pub mod runs;
pub mod small;
pub mod sources;
