//! The types of a program: its typed tree, or its first type fault.
#![tactic(auto)]

mod bodies;
mod checker;
mod items;
mod program;
mod progress;
mod sorts;

pub use al_core::Typed;
pub use al_layout::Layout;
pub use al_rules::{TypeFault, TypeKind};
pub use al_source::Program;
pub use program::check;
