//! What a program is after typing, what its values are, the arithmetic, and the definition of what it means.
#![tactic(auto)]

mod arithmetic;
mod choices;
mod for_loops;
mod operations;
mod orders;
mod reductions;
mod reports;
mod steps;
mod typed_tree;
mod values;
mod view;

pub use al_source::{BinOp, Bytes, CommitOrder, Format, Name, Piece, Policy, RedOp, UnOp};
pub use arithmetic::{binary, unary};
pub use choices::{Bound, Choice, Knobs, LoopInfo, Red, is_line_size};
pub use for_loops::{ForLoop, PlacedLoop, program_loops};
pub use operations::{
    choose, compare, element, input_at, number, of_kind, of_test, operate, operate_one, point,
    same, shift, trips, truth, words_of,
};
pub use orders::{compare_addresses, compare_objects};
pub use reductions::{red_apply, red_identity};
pub use reports::{Ending, Event, Judged, Report, Verdict};
pub use steps::Budget;
pub use typed_tree::{TExpr, TFunc, TGlobal, TKind, TLocal, TNote, TPlace, TStmt, Typed};
pub use values::{Addr, Kind, Obj, Trap, Val};
pub use view::{View, ViewFault};
