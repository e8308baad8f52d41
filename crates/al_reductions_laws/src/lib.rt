//! Laws of loops with reductions: what their chunks come to on a memory in which the reduction variables lie, and what
//! rounds of them come to. A law stands on a function that does nothing.
#![tactic(auto)]

pub mod serial;
pub mod writes;
