//! Sources with what is said of each, their code, and a tally of what was compared.
#![tactic(auto)]

mod endings;
mod options;
mod sources;
mod tally;

pub use endings::ending_text;
pub use options::{Row, row_of, rows_of};
pub use sources::{Said, Source, Trial, expanded, lower_source, numbers, read_case};
pub use tally::Tally;
