//! What an expression is to the expression or statement that it is a part of.
#![tactic(auto)]

pub mod calls;
pub mod expressions;
pub mod operands;
pub mod places;
pub mod queue;
