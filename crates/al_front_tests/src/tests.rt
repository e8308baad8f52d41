//! What whole sources give. The values are counted by hand, or follow the grammar as it is written down.

use al_ast::nodes;
use al_lexer::lex;
use al_parser::{ParseFault, parse};
use al_samples::*;
use al_source::{BinOp, Expr, Func, Item, Program, Stmt, StmtKind};
use std::alloc::{AllocError, Global};
use std::test::Fail;

/// A source, how many items it has, and how many statements and expressions.
type Row = (&'static str, usize, u64);

const COUNTS: [Row; 18] = [
    ("", 0, 0),
    (P1, 1, 4),
    (P2, 1, 21),
    (P3, 1, 20),
    (P4, 3, 31),
    (P5, 3, 30),
    (P6, 2, 21),
    (P7, 2, 23),
    (P8, 1, 20),
    (P9, 1, 17),
    (P10, 3, 39),
    (P11, 3, 15),
    (P12, 1, 13),
    (P13, 2, 19),
    (P14, 1, 15),
    (P15, 5, 239),
    (FREES_TWICE, 2, 16),
    (FREES_IN_A_LOOP, 3, 36),
];

fn tree(alloc: Global, source: &[u8]) -> Result<Program, Fail> {
    let tokens = lex(alloc, source)?;
    Ok(parse(alloc, tokens.as_slice())?)
}

fn is_program(alloc: Global, source: &[u8]) -> Result<bool, Fail> {
    let tokens = lex(alloc, source)?;
    match parse(alloc, tokens.as_slice()) {
        Ok(_) => Ok(true),
        Err(ParseFault::Syntax) => Ok(false),
        Err(ParseFault::Memory) => Err(Fail::from(AllocError)),
    }
}

#[test]
fn programs_have_their_items_and_nodes(rt: HostRuntime) -> Result<(), Fail> {
    for (source, items, count) in COUNTS {
        let program = tree(rt.alloc(), source.as_bytes())?;
        assert_eq!(rt; (program.items.len(), nodes(&program)), (items, count));
    }
    Ok(())
}

fn last_function(program: &Program) -> Option<&Func> {
    match program.items.as_slice().last() {
        Some(Item::Func(function)) => Some(function),
        _ => None,
    }
}

/// The lines of the last function and of its statements.
fn lines(alloc: Global, program: &Program) -> Result<Vec<u32>, AllocError> {
    let mut lines = Vec::new(alloc);
    if let Some(function) = last_function(program) {
        lines.push(function.line)?;
        for statement in function.body.as_slice() {
            lines.push(statement.line)?;
        }
    }
    Ok(lines)
}

#[test]
fn a_loop_has_the_line_of_its_for(rt: HostRuntime) -> Result<(), Fail> {
    let program = tree(rt.alloc(), P4.as_bytes())?;
    let lines = lines(rt.alloc(), &program)?;
    assert_eq!(rt; lines.as_slice(), [2, 3, 5, 8, 9].as_slice());
    Ok(())
}

/// `9 - 4 - 3`, joined from the left.
fn is_difference(value: &Expr) -> bool {
    match value {
        Expr::Binary(BinOp::Sub, left, right) => match (left.get(), right.get()) {
            (Expr::Binary(BinOp::Sub, _, _), Expr::Number(3)) => true,
            _ => false,
        },
        _ => false,
    }
}

/// `if (1) if (2) ; else ;`, where the `else` is the inner one's.
fn is_branch(statement: &Stmt) -> bool {
    match &statement.kind {
        StmtKind::If(Expr::Number(1), then, None) => match &then.get().kind {
            StmtKind::If(Expr::Number(2), _, Some(_)) => true,
            _ => false,
        },
        _ => false,
    }
}

fn has_shapes(body: &[Stmt]) -> bool {
    match body {
        [branch, end] => match &end.kind {
            StmtKind::Return(Some(value)) => is_branch(branch) && is_difference(value),
            _ => false,
        },
        _ => false,
    }
}

#[test]
fn operators_join_from_the_left_and_else_to_the_inner_if(rt: HostRuntime) -> Result<(), Fail> {
    let program = tree(
        rt.alloc(),
        b"int main(void) { if (1) if (2) ; else ; return 9 - 4 - 3; }",
    )?;
    let function = last_function(&program).ok_or("no function")?;
    assert!(rt; has_shapes(function.body.as_slice()));
    Ok(())
}

fn push_times(source: &mut Vec<u8>, text: &[u8], count: u32) -> Result<(), AllocError> {
    for _ in 0..count {
        source.extend_from_slice(text)?;
    }
    Ok(())
}

/// A `main` with so many blocks inside one another.
fn blocks(alloc: Global, count: u32) -> Result<Vec<u8>, AllocError> {
    let mut source = Vec::new(alloc);
    push_times(&mut source, b"int main(void) { ", 1)?;
    push_times(&mut source, b"{ ", count)?;
    push_times(&mut source, b"} ", count)?;
    push_times(&mut source, b"}\n", 1)?;
    Ok(source)
}

/// A `main` that prints ones with so many `+` between them.
fn ones(alloc: Global, count: u32) -> Result<Vec<u8>, AllocError> {
    let mut source = Vec::new(alloc);
    push_times(&mut source, b"int main(void) { printf(\"%ld\\n\", 1", 1)?;
    push_times(&mut source, b" + 1", count)?;
    push_times(&mut source, b"); }\n", 1)?;
    Ok(source)
}

#[test]
fn there_are_at_most_128_blocks_and_operators(rt: HostRuntime) -> Result<(), Fail> {
    for (count, wanted) in [(128, true), (129, false)] {
        let nested = blocks(rt.alloc(), count)?;
        let summed = ones(rt.alloc(), count)?;
        assert_eq!(rt; is_program(rt.alloc(), &nested)?, wanted);
        assert_eq!(rt; is_program(rt.alloc(), &summed)?, wanted);
    }
    Ok(())
}
