//! The parser: from tokens to the source tree, exactly as the grammar derives it.
#![tactic(auto)]

mod items;
mod program;
mod statements;

pub use al_source::ParseFault;
pub use program::{Parsed, first_bad, parse, parse_or_first_bad};
