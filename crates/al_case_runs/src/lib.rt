//! Whole runs by the machine, each annotated loop plain, beside the plain interpreter.
#![tactic(auto)]

mod globals;
mod plain;
mod runs;

pub use globals::{plain_globals, put_globals};
pub use runs::check_run;
