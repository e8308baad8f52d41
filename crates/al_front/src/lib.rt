//! The front end: from a source to its typed tree, or the first cause for which it is refused.
#![tactic(auto)]

mod fault;
mod laws;
mod resolving;

pub use fault::{BadTokens, FrontFault};
pub use laws::bad_tokens_are_told;
pub use resolving::{Noted, resolve};
