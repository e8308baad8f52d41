//! A call of `alter` over files and sinks in memory, and whether it gives what is asked.
#![tactic(auto)]

mod call;
mod files;
mod wanted;

pub use call::{Asked, gives};
pub use files::File;
pub use wanted::{Wanted, add_line};
