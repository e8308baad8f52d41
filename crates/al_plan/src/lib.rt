//! Which chunks of an execution of an annotated loop are still pending.
#![tactic(auto)]

mod plan;

pub use plan::{Plan, PlanFault};
