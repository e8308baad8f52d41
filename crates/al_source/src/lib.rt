//! The plain types that every stage shares: operators, annotations, texts, tokens, the source tree and the faults
//! of the lexer and the parser.
#![tactic(auto)]

mod annotations;
mod faults;
pub mod limits;
mod operators;
mod source_tree;
mod texts;
mod tokens;

pub use annotations::{CommitOrder, LoopNote, NamedRed, Policy};
pub use faults::{LexFault, ParseFault};
pub use operators::{BinOp, RedOp, UnOp};
pub use source_tree::{
    CType, Expr, Field, Func, GlobalDef, Item, Program, Start, Stmt, StmtKind, StructDef,
};
pub use texts::{Bytes, Format, Name, Piece};
pub use tokens::{Key, Mark, Token, TokenKind};
