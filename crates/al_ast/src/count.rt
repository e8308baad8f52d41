//! Counting nodes. A count takes no memory, and recurs as deep as the tree.

ghost use Rattle.std.specs.Prelude.{◌≡◌, ◌+◌};
ghost use Rattle.al_ast.specs.Nodes as spec;

use al_source::{Expr, Item, Program, Stmt, StmtKind};
use sqlite_items::Boxed;

/// How many statements and expressions the program has, or 18446744073709551615 where it has more.
pub fn nodes(program: &Program) -> u64
    ensures { result ≡ spec.capped (spec.program_nodes program.now) }
{
    let mut count = 0;
    let mut left = program.items.as_slice();
    while let [item, rest @ ..] = left {
        count = sum(count, of_item(item));
        left = rest;
    }
    count
}

fn sum(a: u64, b: u64) -> u64
    ensures { result ≡ spec.capped (a + b) }
{
    a.saturating_add(b)
}

#[cycle(expressions)]
#[tactic(auto, using(crate::proofs::Cases::expr_counts))]
fn of_expr(x: &Expr) -> u64
    ensures { result ≡ spec.capped (spec.expr_nodes x.now) }
{
    match x {
        Expr::Number(_) | Expr::Null | Expr::Var(_) | Expr::SizeOf(_) => 1,
        Expr::Unary(_, x) => sum(1, of_expr(x.get())),
        Expr::Deref(x) | Expr::Address(x) => sum(1, of_expr(x.get())),
        Expr::Dot(x, _) | Expr::Arrow(x, _) => sum(1, of_expr(x.get())),
        Expr::Calloc(x, _) => sum(1, of_expr(x.get())),
        Expr::Binary(_, x, y) => sum(sum(1, of_expr(x.get())), of_expr(y.get())),
        Expr::And(x, y) | Expr::Or(x, y) | Expr::Index(x, y) => {
            sum(sum(1, of_expr(x.get())), of_expr(y.get()))
        }
        Expr::Call(_, xs) => sum(1, of_exprs(xs.as_slice())),
    }
}

#[cycle(expressions)]
fn of_exprs(xs: &[Expr]) -> u64
    ensures { result ≡ spec.capped (spec.exprs_nodes xs.now) }
{
    let mut count = 0;
    let mut left = xs.len();
    while left > 0 {
        left -= 1;
        count = sum(count, of_expr(&xs[left]));
    }
    count
}

fn of_value(x: &Option<Expr>) -> u64
    ensures { result ≡ spec.capped (spec.value_nodes x.now) }
{
    match x {
        Some(x) => of_expr(x),
        None => 0,
    }
}

#[cycle(statements)]
#[tactic(auto, using(crate::proofs::Cases::stmt_counts))]
fn of_stmt(s: &Stmt) -> u64
    ensures { result ≡ spec.capped (spec.stmt_nodes s.now) }
{
    sum(1, of_kind(&s.kind))
}

#[cycle(statements)]
#[tactic(auto, using(crate::proofs::Cases::kind_counts, crate::proofs::Cases::three, crate::proofs::Cases::four))]
fn of_kind(k: &StmtKind) -> u64
    ensures { result ≡ spec.capped (spec.kind_nodes k.now) }
{
    match k {
        StmtKind::Empty | StmtKind::Break | StmtKind::Continue => 0,
        StmtKind::Declare(_, _, x) => of_value(x),
        StmtKind::Return(x) => of_value(x),
        StmtKind::Assign(x, y) => sum(of_expr(x), of_expr(y)),
        StmtKind::Update(_, x, y) => sum(of_expr(x), of_expr(y)),
        StmtKind::Call(_, xs) => of_exprs(xs.as_slice()),
        StmtKind::Print(_, xs) => of_exprs(xs.as_slice()),
        StmtKind::If(c, x, y) => sum(sum(of_expr(c), of_stmt(x.get())), of_part(y)),
        StmtKind::While(c, x) => sum(of_expr(c), of_stmt(x.get())),
        StmtKind::For(first, test, third, x, _) => {
            let head = sum(sum(of_part(first), of_value(test)), of_part(third));
            sum(head, of_stmt(x.get()))
        }
        StmtKind::Block(ss) => of_stmts(ss.as_slice()),
    }
}

#[cycle(statements)]
fn of_part(s: &Option<Boxed<Stmt>>) -> u64
    ensures { result ≡ spec.capped (spec.part_nodes s.now) }
{
    match s {
        Some(s) => of_stmt(s.get()),
        None => 0,
    }
}

#[cycle(statements)]
fn of_stmts(ss: &[Stmt]) -> u64
    ensures { result ≡ spec.capped (spec.stmts_nodes ss.now) }
{
    let mut count = 0;
    let mut left = ss.len();
    while left > 0 {
        left -= 1;
        count = sum(count, of_stmt(&ss[left]));
    }
    count
}

fn of_item(item: &Item) -> u64
    ensures { result ≡ spec.capped (spec.item_nodes item.now) }
{
    match item {
        Item::Func(function) => of_stmts(function.body.as_slice()),
        _ => 0,
    }
}
