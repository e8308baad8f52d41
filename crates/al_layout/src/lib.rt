//! How many words the structs and globals of a program have, and where the fields of a struct lie.
#![tactic(auto)]

mod items;
mod types;

pub use al_rules::{Layout, LayoutFault, StructLayout};
pub use al_source::Program;
pub use items::layout;
pub use types::words;
