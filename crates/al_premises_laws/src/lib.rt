//! Facts: what the laws of the serial order ask is met, so that none of them holds for want of a program. The program
//! is the small one of `al_runs_laws`. A fact stands on a function that does nothing.
#![tactic(auto)]

pub mod loops;
pub mod records;
pub mod runs;
