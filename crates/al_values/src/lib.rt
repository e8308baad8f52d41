//! Values in 16 bytes, lists of them, and views of them.
#![tactic(auto)]

mod packed;
mod view;
mod words;

pub use packed::PackedValue;
pub use view::PackedView;
pub use words::Words;
