//! The instructions of whole programs, written by hand from the table of instructions.

use crate::lowered::lowered;
use al_code::{Body, Entry, Instr, valid};
use al_core::{BinOp, Kind};
use al_samples::*;
use std::alloc::AllocError;
use std::test::Fail;

const SOURCES: [&str; 15] = [
    P1,
    P2,
    P3,
    P4,
    P5,
    P6,
    P7,
    P8,
    P9,
    P10,
    P11,
    P12,
    P13,
    P15,
    FREES_TWICE,
];

#[test]
fn programs_are_lowered_to_valid_code(rt: HostRuntime) -> Result<(), Fail> {
    for source in SOURCES {
        let code = lowered(rt.alloc(), source)?.ok_or("refused")?;
        assert!(rt; valid(&code));
    }
    Ok(())
}

#[test]
fn a_refused_program_has_no_code(rt: HostRuntime) -> Result<(), Fail> {
    assert!(rt; lowered(rt.alloc(), P14)?.is_none());
    Ok(())
}

#[test]
fn a_program_that_prints(rt: HostRuntime) -> Result<(), Fail> {
    let code = lowered(rt.alloc(), P1)?.ok_or("refused")?;
    let wanted = [
        Instr::Step,
        Instr::Push(2),
        Instr::Push(3),
        Instr::Binary(BinOp::Add),
        Instr::Print(0),
        Instr::Push(0),
        Instr::Return,
    ];
    assert_eq!(rt; code.instrs.as_slice(), wanted.as_slice());
    assert_eq!(rt; code.lines.as_slice(), [1, 1, 1, 1, 1, 1, 1].as_slice());
    assert_eq!(rt; code.heights.as_slice(), [0, 0, 1, 2, 1, 0, 1].as_slice());
    let main = Entry {
        start: 0,
        end: 7,
        params: 0,
        locals: 0,
    };
    assert_eq!(rt; code.funcs.as_slice(), [main].as_slice());
    assert_eq!(rt; (code.main, code.texts.len(), code.loops.len()), (0, 1, 0));
    Ok(())
}

const LOOPS: &str = "long x;
int main(void) {
  long i;
#pragma alter RAW InOrder
  for (i = 3; i < 5; i++)
    x += i;
  while (x)
    if (x < 4 && i) continue;
}
";

#[test]
fn loops_and_jumps(rt: HostRuntime) -> Result<(), Fail> {
    let code = lowered(rt.alloc(), LOOPS)?.ok_or("refused")?;
    let wanted = [
        Instr::Step,
        Instr::Push(0),
        Instr::SetLocal(0),
        Instr::Step,
        Instr::Push(3),
        Instr::Loop(0),
        Instr::Step,
        Instr::Global(0),
        Instr::Dup,
        Instr::Load(Kind::Int),
        Instr::GetLocal(0),
        Instr::Binary(BinOp::Add),
        Instr::Store,
        Instr::EndIteration,
        Instr::Step,
        Instr::Step,
        Instr::Global(0),
        Instr::Load(Kind::Int),
        Instr::JumpIf(false, 33),
        Instr::Step,
        Instr::Global(0),
        Instr::Load(Kind::Int),
        Instr::Push(4),
        Instr::Binary(BinOp::Lt),
        Instr::JumpIf(false, 28),
        Instr::GetLocal(0),
        Instr::Truth,
        Instr::Jump(29),
        Instr::Push(0),
        Instr::JumpIf(false, 32),
        Instr::Step,
        Instr::Jump(32),
        Instr::Jump(15),
        Instr::Push(0),
        Instr::Return,
    ];
    assert_eq!(rt; code.instrs.as_slice(), wanted.as_slice());
    let body = Body { start: 6, end: 14 };
    assert_eq!(rt; code.bodies.as_slice(), [body].as_slice());
    let lines: [u32; 35] = [
        3, 3, 3, 5, 5, 5, 6, 6, 6, 6, 6, 6, 6, 5, 7, 7, 7, 7, 7, 8, 8, 8, 8, 8, 8, 8, 8, 8, 8, 8,
        8, 8, 7, 2, 2,
    ];
    assert_eq!(rt; code.lines.as_slice(), lines.as_slice());
    let heights: [u32; 35] = [
        0, 0, 1, 0, 0, 1, 0, 0, 1, 2, 2, 3, 2, 0, 0, 0, 0, 1, 1, 0, 0, 1, 1, 2, 1, 0, 1, 1, 0, 1,
        0, 0, 0, 0, 1,
    ];
    assert_eq!(rt; code.heights.as_slice(), heights.as_slice());
    Ok(())
}
