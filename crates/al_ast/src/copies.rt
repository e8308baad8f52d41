//! Deep copies. A copy is equal to what it is a copy of, and shares no memory with it; each recurs as deep as the tree.

ghost use Rattle.std.specs.Prelude.{◌≡◌, IfOk};

use al_source::{CType, Expr, Format, LoopNote, NamedRed, Piece, Stmt, StmtKind};
use sqlite_items::{Boxed, Items};
use std::alloc::{AllocError, Global};

fn copy_piece(alloc: Global, piece: &Piece) -> Result<Piece, AllocError>
    ensures { IfOk result (λ p. p ≡ piece.now) }
{
    match piece {
        Piece::Plain(bytes) => Ok(Piece::Plain(Items::from_slice(alloc, bytes.as_slice())?)),
        Piece::Number => Ok(Piece::Number),
    }
}

/// The same format of a `printf`.
pub fn copy_format(alloc: Global, format: &[Piece]) -> Result<Format, AllocError>
    ensures { IfOk result (λ f. f ≡ format.now) }
{
    let mut copy = Items::new(alloc);
    for piece in format {
        copy.push(copy_piece(alloc, piece)?)?;
    }
    Ok(copy)
}

/// The same type.
pub fn copy_type(alloc: Global, ty: &CType) -> Result<CType, AllocError>
    ensures { IfOk result (λ t. t ≡ ty.now) }
{
    match ty {
        CType::Int => Ok(CType::Int),
        CType::Void => Ok(CType::Void),
        CType::Struct(name) => Ok(CType::Struct(Items::from_slice(alloc, name.as_slice())?)),
        CType::Ptr(to) => Ok(CType::Ptr(Boxed::new(alloc, copy_type(alloc, to.get())?)?)),
        CType::Array(of, length) => {
            Ok(CType::Array(Boxed::new(alloc, copy_type(alloc, of.get())?)?, *length))
        }
    }
}

fn copy_reduction(alloc: Global, red: &NamedRed) -> Result<NamedRed, AllocError>
    ensures { IfOk result (λ r. r ≡ red.now) }
{
    Ok(NamedRed {
        op: red.op,
        name: Items::from_slice(alloc, red.name.as_slice())?,
    })
}

/// The same annotation of a loop.
pub fn copy_note(alloc: Global, note: &LoopNote) -> Result<LoopNote, AllocError>
    ensures { IfOk result (λ n. n ≡ note.now) }
{
    let mut reduce = Items::new(alloc);
    for red in note.reduce.as_slice() {
        reduce.push(copy_reduction(alloc, red)?)?;
    }
    Ok(LoopNote {
        policy: note.policy,
        order: note.order,
        reduce,
    })
}

/// The same expression.
#[cycle(expressions)]
pub fn copy_expr(alloc: Global, x: &Expr) -> Result<Expr, AllocError>
    ensures { IfOk result (λ y. y ≡ x.now) }
{
    match x {
        Expr::Number(value) => Ok(Expr::Number(*value)),
        Expr::Null => Ok(Expr::Null),
        Expr::Var(name) => Ok(Expr::Var(Items::from_slice(alloc, name.as_slice())?)),
        Expr::Unary(op, x) => Ok(Expr::Unary(*op, Boxed::new(alloc, copy_expr(alloc, x.get())?)?)),
        Expr::Binary(op, x, y) => {
            let x = Boxed::new(alloc, copy_expr(alloc, x.get())?)?;
            Ok(Expr::Binary(*op, x, Boxed::new(alloc, copy_expr(alloc, y.get())?)?))
        }
        Expr::And(x, y) => {
            let x = Boxed::new(alloc, copy_expr(alloc, x.get())?)?;
            Ok(Expr::And(x, Boxed::new(alloc, copy_expr(alloc, y.get())?)?))
        }
        Expr::Or(x, y) => {
            let x = Boxed::new(alloc, copy_expr(alloc, x.get())?)?;
            Ok(Expr::Or(x, Boxed::new(alloc, copy_expr(alloc, y.get())?)?))
        }
        Expr::Index(x, y) => {
            let x = Boxed::new(alloc, copy_expr(alloc, x.get())?)?;
            Ok(Expr::Index(x, Boxed::new(alloc, copy_expr(alloc, y.get())?)?))
        }
        Expr::Dot(x, name) => {
            let x = Boxed::new(alloc, copy_expr(alloc, x.get())?)?;
            Ok(Expr::Dot(x, Items::from_slice(alloc, name.as_slice())?))
        }
        Expr::Arrow(x, name) => {
            let x = Boxed::new(alloc, copy_expr(alloc, x.get())?)?;
            Ok(Expr::Arrow(x, Items::from_slice(alloc, name.as_slice())?))
        }
        Expr::Deref(x) => Ok(Expr::Deref(Boxed::new(alloc, copy_expr(alloc, x.get())?)?)),
        Expr::Address(x) => Ok(Expr::Address(Boxed::new(alloc, copy_expr(alloc, x.get())?)?)),
        Expr::Call(name, xs) => {
            let name = Items::from_slice(alloc, name.as_slice())?;
            Ok(Expr::Call(name, copy_exprs(alloc, xs.as_slice())?))
        }
        Expr::SizeOf(ty) => Ok(Expr::SizeOf(copy_type(alloc, ty)?)),
        Expr::Calloc(x, ty) => {
            let x = Boxed::new(alloc, copy_expr(alloc, x.get())?)?;
            Ok(Expr::Calloc(x, copy_type(alloc, ty)?))
        }
    }
}

#[cycle(expressions)]
fn copy_exprs(alloc: Global, xs: &[Expr]) -> Result<Items<Expr>, AllocError>
    ensures { IfOk result (λ ys. ys ≡ xs.now) }
{
    let mut copy = Items::new(alloc);
    for x in xs {
        copy.push(copy_expr(alloc, x)?)?;
    }
    Ok(copy)
}

fn copy_value(alloc: Global, x: &Option<Expr>) -> Result<Option<Expr>, AllocError>
    ensures { IfOk result (λ y. y ≡ x.now) }
{
    match x {
        Some(x) => Ok(Some(copy_expr(alloc, x)?)),
        None => Ok(None),
    }
}

fn copy_annotation(alloc: Global, note: &Option<LoopNote>) -> Result<Option<LoopNote>, AllocError>
    ensures { IfOk result (λ n. n ≡ note.now) }
{
    match note {
        Some(note) => Ok(Some(copy_note(alloc, note)?)),
        None => Ok(None),
    }
}

/// The same statement, on the same line.
#[cycle(statements)]
pub fn copy_stmt(alloc: Global, s: &Stmt) -> Result<Stmt, AllocError>
    ensures { IfOk result (λ t. t ≡ s.now) }
{
    Ok(Stmt {
        line: s.line,
        kind: copy_kind(alloc, &s.kind)?,
    })
}

#[cycle(statements)]
fn copy_kind(alloc: Global, kind: &StmtKind) -> Result<StmtKind, AllocError>
    ensures { IfOk result (λ k. k ≡ kind.now) }
{
    match kind {
        StmtKind::Empty => Ok(StmtKind::Empty),
        StmtKind::Declare(ty, name, x) => {
            let ty = copy_type(alloc, ty)?;
            let name = Items::from_slice(alloc, name.as_slice())?;
            Ok(StmtKind::Declare(ty, name, copy_value(alloc, x)?))
        }
        StmtKind::Assign(x, y) => {
            let x = copy_expr(alloc, x)?;
            Ok(StmtKind::Assign(x, copy_expr(alloc, y)?))
        }
        StmtKind::Update(op, x, y) => {
            let x = copy_expr(alloc, x)?;
            Ok(StmtKind::Update(*op, x, copy_expr(alloc, y)?))
        }
        StmtKind::Call(name, xs) => {
            let name = Items::from_slice(alloc, name.as_slice())?;
            Ok(StmtKind::Call(name, copy_exprs(alloc, xs.as_slice())?))
        }
        StmtKind::Print(format, xs) => {
            let format = copy_format(alloc, format.as_slice())?;
            Ok(StmtKind::Print(format, copy_exprs(alloc, xs.as_slice())?))
        }
        StmtKind::If(c, x, y) => {
            let c = copy_expr(alloc, c)?;
            let x = Boxed::new(alloc, copy_stmt(alloc, x.get())?)?;
            Ok(StmtKind::If(c, x, copy_part(alloc, y)?))
        }
        StmtKind::While(c, x) => {
            let c = copy_expr(alloc, c)?;
            Ok(StmtKind::While(c, Boxed::new(alloc, copy_stmt(alloc, x.get())?)?))
        }
        StmtKind::For(first, test, third, x, note) => {
            let first = copy_part(alloc, first)?;
            let test = copy_value(alloc, test)?;
            let third = copy_part(alloc, third)?;
            let x = Boxed::new(alloc, copy_stmt(alloc, x.get())?)?;
            Ok(StmtKind::For(first, test, third, x, copy_annotation(alloc, note)?))
        }
        StmtKind::Block(ss) => Ok(StmtKind::Block(copy_stmts(alloc, ss.as_slice())?)),
        StmtKind::Return(x) => Ok(StmtKind::Return(copy_value(alloc, x)?)),
        StmtKind::Break => Ok(StmtKind::Break),
        StmtKind::Continue => Ok(StmtKind::Continue),
    }
}

#[cycle(statements)]
fn copy_part(alloc: Global, s: &Option<Boxed<Stmt>>) -> Result<Option<Boxed<Stmt>>, AllocError>
    ensures { IfOk result (λ t. t ≡ s.now) }
{
    match s {
        Some(s) => Ok(Some(Boxed::new(alloc, copy_stmt(alloc, s.get())?)?)),
        None => Ok(None),
    }
}

#[cycle(statements)]
fn copy_stmts(alloc: Global, ss: &[Stmt]) -> Result<Items<Stmt>, AllocError>
    ensures { IfOk result (λ ts. ts ≡ ss.now) }
{
    let mut copy = Items::new(alloc);
    for s in ss {
        copy.push(copy_stmt(alloc, s)?)?;
    }
    Ok(copy)
}
