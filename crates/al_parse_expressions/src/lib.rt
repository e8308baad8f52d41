//! The parser of types and expressions, below that of statements and items.
#![tactic(auto)]

mod cursor;
mod expressions;
mod types;

pub use cursor::Cursor;
