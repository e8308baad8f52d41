use crate::annotations::LoopNote;
use crate::operators::{BinOp, UnOp};
use crate::texts::{Format, Name};
use sqlite_items::{Boxed, Items};

/// A whole source file.
#[derive(Drop)]
pub struct Program {
    pub items: Items<Item>,
}

#[derive(Drop)]
pub enum Item {
    Struct(StructDef),
    Global(GlobalDef),
    Func(Func),
}

/// `line` is that of the item's first token, from 1, here and in the two items below.
#[derive(Drop)]
pub struct StructDef {
    pub name: Name,
    pub fields: Items<Field>,
    pub line: u32,
}

/// A field of a struct, or a parameter of a function.
#[derive(Drop)]
pub struct Field {
    pub name: Name,
    pub ty: CType,
}

#[derive(Drop)]
pub struct GlobalDef {
    pub name: Name,
    pub ty: CType,
    pub start: Start,
    pub line: u32,
}

/// What a global holds when the program starts.
#[derive(Clone, Copy, Debug, PartialEq, Eq)]
pub enum Start {
    /// Nothing is written, so it is zeroed (C99 6.7.8p10).
    Zero,
    Number(i64),
    Null,
}

#[derive(Drop)]
pub struct Func {
    pub name: Name,
    pub result: CType,
    pub params: Items<Field>,
    pub body: Items<Stmt>,
    pub line: u32,
}

#[derive(Drop)]
pub enum CType {
    /// Every integer type of the language: one word of 64 bits.
    Int,
    Void,
    Struct(Name),
    Ptr(Boxed<CType>),
    /// An array of so many elements.
    Array(Boxed<CType>, u32),
}

/// `line` is that of the statement's first token, and for an annotated loop that of its `for`.
#[cycle(stmt)]
#[derive(Drop)]
pub struct Stmt {
    pub line: u32,
    pub kind: StmtKind,
}

#[cycle(stmt)]
#[derive(Drop)]
pub enum StmtKind {
    Empty,
    Declare(CType, Name, Option<Expr>),
    Assign(Expr, Expr),
    Update(BinOp, Expr, Expr),
    Call(Name, Items<Expr>),
    Print(Format, Items<Expr>),
    If(Expr, Boxed<Stmt>, Option<Boxed<Stmt>>),
    While(Expr, Boxed<Stmt>),
    /// Its first part, test, third part, body and annotation.
    For(Option<Boxed<Stmt>>, Option<Expr>, Option<Boxed<Stmt>>, Boxed<Stmt>, Option<LoopNote>),
    Block(Items<Stmt>),
    Return(Option<Expr>),
    Break,
    Continue,
}

#[derive(Drop)]
pub enum Expr {
    Number(i64),
    Null,
    Var(Name),
    Unary(UnOp, Boxed<Expr>),
    Binary(BinOp, Boxed<Expr>, Boxed<Expr>),
    And(Boxed<Expr>, Boxed<Expr>),
    Or(Boxed<Expr>, Boxed<Expr>),
    Index(Boxed<Expr>, Boxed<Expr>),
    Dot(Boxed<Expr>, Name),
    Arrow(Boxed<Expr>, Name),
    Deref(Boxed<Expr>),
    Address(Boxed<Expr>),
    Call(Name, Items<Expr>),
    SizeOf(CType),
    Calloc(Boxed<Expr>, CType),
}
