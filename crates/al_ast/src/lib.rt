//! The source tree, how many nodes it has, and copies of it.
#![tactic(auto)]

mod copies;
mod count;

pub use al_source::{
    BinOp, Bytes, CType, CommitOrder, Expr, Field, Format, Func, GlobalDef, Item, LoopNote, Name,
    NamedRed, Piece, Policy, Program, RedOp, Start, Stmt, StmtKind, StructDef, UnOp,
};
pub use copies::{copy_expr, copy_format, copy_note, copy_stmt, copy_type};
pub use count::nodes;
