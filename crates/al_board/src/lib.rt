//! A board of lanes: passes draw the lanes, each once, and put a piece into each that they drew. A board with a shelf
//! lays the pieces on it in the order of their lanes while passes still draw and put. No call waits, where
//! the caller's `make` and `lay` do not.
#![tactic(auto)]

mod calls;
mod closing;
mod helping;
mod law;
mod opening;
mod piece;
mod pile;
mod plays;
mod table;
mod view;
mod working;

pub use law::{closed_boards_are_judged, journals_tell_histories, rule_says, verdicts_in_order};
pub use piece::{Maker, Piece};
pub use pile::Pile;
pub use table::{Board, Pass};
pub use view::{Entry, Helped, Miss, Setting, Slot, Turn, View};
pub use working::{fill_next, work, work_and_lay};
