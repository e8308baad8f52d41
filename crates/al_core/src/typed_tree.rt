use crate::choices::Choice;
use crate::values::Kind;
use al_source::{BinOp, Format, Name, RedOp, UnOp};
use sqlite_items::{Boxed, Items};

/// A typed program: names are numbers, and types are kinds of words.
#[derive(Drop)]
pub struct Typed {
    pub globals: Items<TGlobal>,
    pub funcs: Items<TFunc>,
    /// The function `main`.
    pub main: u32,
    /// The annotated loops, in source order.
    pub loops: Items<TNote>,
    /// The statements and expressions of its source.
    pub nodes: u64,
}

/// A global of so many words. `scalar` is its kind where it is one word that is neither an array nor a struct.
#[derive(Drop)]
pub struct TGlobal {
    pub name: Name,
    pub words: u32,
    pub scalar: Option<Kind>,
    /// What its first word holds at the start. All else is 0.
    pub start: i64,
}

/// A function. Its locals are the parameters and then its declarations in source order.
#[derive(Drop)]
pub struct TFunc {
    pub params: u32,
    pub locals: Items<TLocal>,
    pub body: Items<TStmt>,
    /// The line of its definition's first token.
    pub line: u32,
}

#[derive(Drop)]
pub struct TLocal {
    pub name: Name,
    pub kind: Kind,
}

/// An annotated loop. Its body declares the locals from `first` to below `last`.
#[derive(Drop)]
pub struct TNote {
    pub func: u32,
    pub line: u32,
    pub own: Choice,
    pub first: u32,
    pub last: u32,
}

#[cycle(typed_stmt)]
#[derive(Drop)]
pub struct TStmt {
    /// The line of its first token, and of an annotated loop that of its `for`.
    pub line: u32,
    pub kind: TKind,
}

#[cycle(typed_stmt)]
#[derive(Drop)]
pub enum TKind {
    Empty,
    SetLocal(u32, TExpr),
    Store(TPlace, TExpr),
    UpdateLocal(BinOp, u32, TExpr),
    UpdateAt(BinOp, TPlace, TExpr),
    /// A call as a statement.
    Call(TExpr),
    Print(Format, Items<TExpr>),
    If(TExpr, Boxed<TStmt>, Option<Boxed<TStmt>>),
    While(TExpr, Boxed<TStmt>),
    /// Its first part, test, third part, body, and the number of an annotated loop.
    For(Option<Boxed<TStmt>>, Option<TExpr>, Option<Boxed<TStmt>>, Boxed<TStmt>, Option<u32>),
    Block(Items<TStmt>),
    Return(Option<TExpr>),
    Break,
    Continue,
}

#[cycle(typed_expr)]
#[derive(Drop)]
pub enum TExpr {
    Number(i64),
    Local(u32),
    Load(Kind, Boxed<TPlace>),
    Addr(Boxed<TPlace>),
    Unary(UnOp, Boxed<TExpr>),
    Binary(BinOp, Boxed<TExpr>, Boxed<TExpr>),
    /// Whether two pointers are equal (`true`), or are not.
    Same(bool, Boxed<TExpr>, Boxed<TExpr>),
    And(Boxed<TExpr>, Boxed<TExpr>),
    Or(Boxed<TExpr>, Boxed<TExpr>),
    Call(u32, Items<TExpr>),
    /// The built-in `input`.
    Input(Boxed<TExpr>),
    /// The built-in `inputs`.
    Inputs,
    /// The built-in `min` or `max`.
    Choose(RedOp, Boxed<TExpr>, Boxed<TExpr>),
    /// So many elements of so many words.
    Calloc(Boxed<TExpr>, u32),
    /// Takes an object out of the memory. Its value is 0.
    Free(Boxed<TExpr>),
}

#[cycle(typed_expr)]
#[derive(Drop)]
pub enum TPlace {
    /// The first word of a global.
    Global(u32),
    /// Where a pointer leads.
    At(TExpr),
    /// So many words on.
    Plus(Boxed<TPlace>, u32),
    /// An element, of so many words.
    Elem(Boxed<TPlace>, TExpr, u32),
}
