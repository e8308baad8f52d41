//! From the typed tree to lowered code. What is planned is written from the last instruction to the first, so that each
//! place is known when it is jumped to.
#![tactic(auto)]

mod assembly;
mod backward;
mod copies;
mod expressions;
mod heights;
mod lowering;
mod parts;
mod program;
mod statements;

pub use al_rules::LowerFault;
pub use lowering::lower;
