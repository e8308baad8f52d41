//! Judging the pieces of a board in the order of their lanes while others are still made.
#![tactic(auto)]

mod book;
mod shelf;
mod weigh;

pub use al_board::Helped;
pub use book::{Book, Settled};
pub use shelf::Bookshelf;
pub use weigh::{BookPiece, Weigh};
