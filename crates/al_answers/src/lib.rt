//! Files are read by a plan, and an answer is written to standard output and standard error.
#![tactic(auto)]

mod answers;
mod delivering;
mod lines;
mod reading;

pub use answers::{Answer, Status, failed};
pub use delivering::deliver;
pub use lines::line;
pub use reading::{FileRead, read_file};
